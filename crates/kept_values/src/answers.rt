//! Answers of groups' values, listed as they were asked for.

ghost use Rattle.std.specs.Prelude.{◌≡◌, ℕ, IfSome};

use bwe_specs::OutOfMemory;
use std::alloc::Global;
use std::cell::RefCell;
use std::marker::{Brand, PhantomData};

// Among so many answers of a group, the last ones, a value is looked for: a search asks mostly for
// what was asked just before.
const MOST_LOOKED_AT: usize = 64;

/// What groups may have at shares, as long as answers are listed.
pub trait Meant {
    ghost value: { ℕ → ℕ → ℕ };
}

impl Meant for Brand {
    ghost value = { λ group share. 0 };
}

/// A value that was asked for, in kilobits per second.
#[derive(Drop)]
pub struct Answer<K: Meant> {
    pub group: u32,
    pub share: u64,
    pub value: u64,
    of: PhantomData<K>,
    ghost is: { value ≡ K.value group share },
}

/// Of each group the values that were asked for, in the order of the questions.
#[derive(Drop)]
pub struct Answers<K: Meant> {
    lists: RefCell<Vec<Vec<Answer<K>>>>,
    most: usize,
}

impl<K: Meant> Answers<K> {
    /// No answer yet of so many groups, and room for at most so many answers of each.
    pub fn new(alloc: Global, groups: u32, most: usize) -> Result<Answers<K>, OutOfMemory> {
        let mut lists = Vec::with_capacity(alloc, groups as usize)?;
        for _ in 0..groups {
            lists.push(Vec::new(alloc))?;
        }
        Ok(Answers {
            lists: RefCell::new(lists),
            most,
        })
    }

    /// The value, where it is among the last 64 that were listed of the group.
    pub fn value(&self, group: u32, share: u64) -> Option<u64>
        ensures { IfSome result (λ value. value ≡ K.value group share) }
    {
        match self.lists.try_borrow() {
            Ok(lists) => match lists.get(group as usize) {
                Some(list) => value_among(latest(list), group, share),
                None => None,
            },
            Err(_) => None,
        }
    }

    /// Lists the value, where there is memory. Before a group has too many, all others of it are
    /// dropped.
    pub fn list(&self, group: u32, share: u64, value: u64)
        requires { value ≡ K.value group share }
    {
        if let Ok(mut lists) = self.lists.try_borrow_mut()
            && let Some(list) = lists.get_mut(group as usize)
        {
            if list.len() >= self.most {
                list.clear();
            }
            let answer = Answer {
                group,
                share,
                value,
                of: PhantomData,
            };
            let _ = list.push(answer);
        }
    }

    /// The answers, a list for each group.
    pub fn into_lists(self) -> Vec<Vec<Answer<K>>> {
        self.lists.into_inner()
    }
}

// The last of the answers.
fn latest<K: Meant>(answers: &[Answer<K>]) -> &[Answer<K>] {
    let from = answers.len().saturating_sub(MOST_LOOKED_AT);
    &answers[from..]
}

// The value that one of the answers gives.
fn value_among<K: Meant>(answers: &[Answer<K>], group: u32, share: u64) -> Option<u64>
    ensures { IfSome result (λ value. value ≡ K.value group share) }
{
    for answer in answers {
        if answer.group == group && answer.share == share {
            return Some(answer.value);
        }
    }
    None
}
