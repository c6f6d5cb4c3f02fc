//! The rules of a book that admit an action, a noun and a room, one by one.
ghost use Rattle.std.specs.Prelude.{◌≡◌};
ghost use Rattle.std.specs.Iterator.{YieldsFirst, item_count};
ghost use Rattle.rule_index.specs.Buckets.{bucket_of};

use crate::Index;
use play_meaning::ActNo;
use std::marker::Model;
use world_meaning::ObjNo;

/// The rules that are left of those of a book that admit an action, a noun and a room.
#[derive(Drop)]
pub struct Bucket<'a> {
    index: &'a Index,
    book: u16,
    action: ActNo,
    noun: Option<ObjNo>,
    room: Option<ObjNo>,
    from: usize,
}

impl<'a> Model for Bucket<'a> {
    ghost use Rattle.std.specs.Prelude.{List, ℕ, drop, filter};
    ghost use Rattle.story_format.specs.Facts.{rules_listed};
    ghost use Rattle.rule_index.specs.Buckets.{rule_admits};

    ghost Value = { List ℕ };

    ghost view = { λ b. filter (rule_admits b.index.now b.action b.noun b.room) (drop b.from (rules_listed b.index.now b.book)) };
}

impl<'a> Bucket<'a> {
    pub(crate) fn new(
        index: &'a Index,
        book: u16,
        action: ActNo,
        noun: Option<ObjNo>,
        room: Option<ObjNo>,
    ) -> Bucket<'a>
        ensures { result ≡ bucket_of index.now book action noun room }
    {
        Bucket {
            index,
            book,
            action,
            noun,
            room,
            from: 0,
        }
    }
}

impl<'a> Iterator for Bucket<'a> {
    type Item = u16;

    ghost next_gives = { YieldsFirst (λ s. s) };

    ghost remaining = { item_count (λ s. s) };

    #[tactic(auto, using(crate::proofs::WalkLemmas::kept_first, crate::proofs::WalkLemmas::none_kept))]
    fn next(&mut self) -> Option<u16> {
        let index = self.index;
        match index.first_from(self.book, self.action, self.noun, self.room, self.from) {
            None => None,
            Some((place, rule)) => {
                self.from = place + 1;
                Some(rule)
            }
        }
    }
}

impl Index {
    /// The rules of a book that admit an action, a noun and a room, in the book's order.
    pub fn bucket(
        &self,
        book: u16,
        action: ActNo,
        noun: Option<ObjNo>,
        room: Option<ObjNo>,
    ) -> Bucket<'_>
        ensures { result ≡ bucket_of self.now book action noun room }
    {
        Bucket::new(self, book, action, noun, room)
    }
}
