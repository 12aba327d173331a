//! What the scribe says to a core.
ghost use Rattle.std.specs.Prelude.{◌≡◌};
ghost use Rattle.crew.specs.Orders.{is_go};

use crate::post::Post;

/// Whether a core that is told this goes on.
pub(crate) fn is_go(post: &Post) -> bool
    ensures { result ≡ is_go post.now }
{
    match post {
        Post::Go => true,
        Post::Mail(_) | Post::Sheet(_) | Post::Halt | Post::Broken => false,
    }
}
