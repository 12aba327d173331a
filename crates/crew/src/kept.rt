//! What a party has taken from the others.
ghost use Rattle.std.specs.Prelude.{◌≡◌, true};
ghost use Rattle.crew.specs.Parties.{IsOneMore};

/// Adds what came from a party to what came from those before it, and says whether all of it is there: nothing was missing, and
/// room was refused to nothing.
pub(crate) fn keep<T: Drop>(kept: &mut Vec<T>, came: Option<T>, fine: bool) -> bool
    ensures { result ≡ true → (fine ≡ true) × IsOneMore kept.old.items came kept.new.items }
{
    match came {
        Some(one) => match kept.push(one) {
            Ok(()) => fine,
            Err(_) => false,
        },
        None => false,
    }
}
