//! What a core posts of a period.
ghost use Rattle.std.specs.Prelude.{◌≡◌, ◌<◌, ◌&&◌, nat_le, [], ◌∷◌, ◌++◌, IfOk, OnOk};
ghost use Rattle.solo_core.specs.First.{AreInRange, share_of_core};
ghost use Rattle.solo_core.specs.Posts.{posts_of};

use crate::lemma::Lemma;
use crate::sheet::{Posted, Settings};
use core_rows::{share_of, shipped};
use lit_base::{List, NoMemory};
use std::alloc::Global;

/// The share limit of the core of this number.
pub(crate) fn share_of_core(settings: &Settings, core: u32) -> u32
    requires settings { AreInRange settings.now }
    requires core { core < settings.now.cores }
    ensures { result ≡ share_of_core settings.now core }
{
    share_of(&shipped().row(core as usize), settings.share)
}

/// The posted ones of these lemmas, in their order.
pub(crate) fn posts_of(
    alloc: Global,
    share: u32,
    lemmas: &[Lemma],
) -> Result<List<Posted>, NoMemory>
    ensures { IfOk result (λ posts. posts ≡ posts_of share lemmas.now) }
{
    let mut posts = List::new(alloc);
    for lemma in lemmas {
        post(alloc, share, lemma, &mut posts)?;
    }
    Ok(posts)
}

/// Adds a lemma to the posts, if it is posted.
fn post(alloc: Global, share: u32, lemma: &Lemma, posts: &mut List<Posted>) -> Result<(), NoMemory>
    ensures { OnOk result (posts.new ≡ posts.old ++ posts_of share (lemma.now ∷ [])) }
{
    if is_posted(share, lemma.lits.len()) {
        let lits = List::of(alloc, lemma.lits.as_slice())?;
        posts.push(Posted {
            name: lemma.name,
            lits,
        })?;
    }
    Ok(())
}

/// Whether a lemma of so many literals is posted.
fn is_posted(share: u32, count: usize) -> bool
    ensures { result ≡ (nat_le 1 count && nat_le count share) }
{
    1 <= count && count <= share as usize
}
