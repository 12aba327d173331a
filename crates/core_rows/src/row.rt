/// The settings of one core. The ranges are those of the table that is shipped.
#[derive(Clone, Copy, Debug, PartialEq, Eq)]
pub struct Row {
    /// The value of a variable that never had one.
    pub phase: bool,
    /// The conflicts of a restart's unit, from 25 to 400.
    pub unit: u32,
    /// What the activity of a touched variable rises by, from 1 to 5.
    pub weight: u64,
    /// The conflicts after which activities are halved, from 50 to 1024.
    pub halve: u32,
    /// The number of bits of the start activities, from 0 to 16, and never above 64.
    pub noise: u32,
    /// What is added to the share limit, from -4 to 4.
    pub share: i32,
}
