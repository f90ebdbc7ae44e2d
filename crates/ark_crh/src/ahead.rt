//! Lists of references, as what is hashed ahead is asked for.

ghost use Rattle.std.specs.Prelude.{◌≡◌, Ok};
ghost use Rattle.ark_base.specs.Outcome.{AnswersBy};
ghost use Rattle.ark_crh.specs.Ahead.{couples_seen, lent, lent_couples};

use ark_base::error::Error;
use ark_base::serialize::Numbered;
use std::alloc::Global;

/// Lends the items of a list. The only error is `OutOfMemory`.
pub fn lend<A>(alloc: Global, items: &[A]) -> Result<Vec<&A>, Error>
    ensures { AnswersBy (λ run. lent run.items) (Ok items.now) result }
{
    let mut run = Vec::with_capacity(alloc, items.len())?;
    'items: for place in 0..items.len() {
        run.push(&items[place])?;
    }
    Ok(run)
}

/// Lends both of each couple of a list. The only error is `OutOfMemory`.
pub fn lend_couples<I: Numbered>(alloc: Global, all: &[(I, I)]) -> Result<Vec<(&I, &I)>, Error>
    ensures { AnswersBy (λ run. lent_couples I.numbers run.items)
        (Ok (couples_seen I.numbers all.now)) result }
{
    let mut run = Vec::with_capacity(alloc, all.len())?;
    'couples: for place in 0..all.len() {
        let (left, right) = &all[place];
        run.push((left, right))?;
    }
    Ok(run)
}
