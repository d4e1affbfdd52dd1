//! The roll of reporters: a word that counts the log, one seat that knows the log, and for each
//! reporter's number one seat that knows its own list.
ghost use Rattle.std.specs.Prelude.{◌≡◌, ℕ, ◌+◌, ◌<◌, ◌++◌, ◌^◌, [], length, IfOk};
ghost use Rattle.std.specs.List.{All};
ghost use Rattle.board_log.specs.Roll.{knower, IsBy, own_of, placed};

use crate::bases::Bases;
use atomic_table::{Join, Play, Seat, Split, Table, TableRule};
use bwe_specs::{OutOfMemory, Report};
use std::alloc::Global;
use std::collections::LinkedList;
use std::marker::{Model, PhantomData};

/// A report with its place in the log, counted from 0. No value of it is made.
pub struct PlacedReport {
    pub place: u64,
    pub report: Report,
}

// What a seat knows. No value of it is made.
struct Knows {
    keeps: bool,
    log: LinkedList<Report>,
    seats: u64,
    reports: bool,
    number: u64,
    own: LinkedList<PlacedReport>,
}

// The rule of the roll.
struct Numbered;

impl TableRule<Vec<Report>, Knows, ()> for Numbered {
    ghost use Rattle.std.specs.Prelude.{[]};
    ghost use Rattle.board_log.specs.Roll.{IsKept, knower};

    ghost holds = { λ _ table. IsKept table.words table.views };

    ghost first = { λ _. knower [] 0 };
}

// Makes a reporter's seat.
struct Enroll;

impl Split<Knows> for Enroll {
    ghost use Rattle.board_log.specs.Roll.{one_seat_more, newcomer};

    ghost left = { one_seat_more };

    ghost right = { newcomer };
}

// The keeper takes in what a reporter's seat knows.
struct TakeIn;

impl Join<Knows> for TakeIn {
    ghost use Rattle.board_log.specs.Roll.{with_member, nobody};

    ghost both = { with_member };

    ghost spent = { nobody };
}

// The keeper gives it back.
struct GiveBack;

impl Split<Knows> for GiveBack {
    ghost use Rattle.board_log.specs.Roll.{without_member, member_of};

    ghost left = { without_member };

    ghost right = { member_of };
}

// The keeper adds a piece.
struct Append;

impl Play<Vec<Report>, Knows> for Append {
    ghost use Rattle.board_log.specs.Roll.{AppendsPiece};

    ghost then = { AppendsPiece };
}

// The keeper compares an own list with the log.
struct Check;

impl Play<Vec<Report>, Knows> for Check {
    ghost use Rattle.board_log.specs.Roll.{ChecksOwn};

    ghost then = { ChecksOwn };
}

type Words = Table<Vec<Report>, Knows, (), Numbered, Global>;

type Place = Seat<Vec<Report>, Knows>;

/// A roll that was just opened, which has no name yet. Its log is empty.
#[derive(Drop)]
pub struct OpenedRoll {
    table: Words,
    keeper: Place,
    pub ghost seated: { (keeper.table_id ≡ table.shared.table_id)
        × (table.shared.table_id.words ≡ 1) },
    pub ghost knows: { keeper.me ≡ (knower [] 0, []) },
}

/// The roll. Contracts see it as the log and the number of members.
#[derive(Drop)]
pub struct Roll<B: Bases> {
    table: Words,
    keeper: Place,
    len: u64,
    of: PhantomData<B>,
}

impl<B: Bases> Model for Roll<B> {
    ghost use Rattle.board_log.specs.Roll.{Rolled, IsKeeper};

    ghost Value = { Rolled };

    ghost view = { λ roll. record {
      log = roll.keeper.me.0.log;
      members =
          roll.keeper.me.0.seats;
    } };

    ghost invariant = { λ roll. IsKeeper B.table roll.table.shared.table_id roll.keeper.table_id
        roll.keeper.me roll.len };
}

/// A reporter's seat in the roll. Contracts see it as its number and its own list.
#[derive(Drop)]
pub struct Member<B: Bases> {
    seat: Place,
    of: PhantomData<B>,
}

impl<B: Bases> Model for Member<B> {
    ghost use Rattle.board_log.specs.Roll.{Membership, IsMember};

    ghost Value = { Membership };

    ghost view = { λ member. record {
      number = member.seat.me.0.number;
      own =
          member.seat.me.0.own;
    } };

    ghost invariant = { λ member. IsMember B.table member.seat.table_id member.seat.me };
}

impl OpenedRoll {
    /// Opens a roll, which has no members.
    pub fn new(alloc: Global) -> Result<OpenedRoll, OutOfMemory> {
        let (table, keeper) = Table::of_words(alloc, &[0], &())?;
        Ok(OpenedRoll { table, keeper })
    }

    /// The roll under a name. It has no members.
    pub fn named<B: Bases>(self) -> Roll<B>
        requires name { self.table.shared.table_id ≡ B.table }
        ensures roll { result ≡ record { log = []; members = 0 } }
    {
        let OpenedRoll { table, keeper } = self;
        Roll {
            table,
            keeper,
            len: 0,
            of: PhantomData,
        }
    }
}

impl<B: Bases> Roll<B> {
    /// A member with the next number. Members are made while the log is empty.
    pub fn enroll(&mut self) -> Member<B>
        requires empty { self.old.log ≡ [] }
        ensures roll { self.new ≡ record { log = []; members = self.old.members + 1 } }
        ensures member { result ≡ record { number = self.old.members; own = [] } }
    {
        let table = &self.table;
        let shared = &table.shared;
        let seat = shared.split_seat::<Enroll>(&mut self.keeper);
        Member {
            seat,
            of: PhantomData,
        }
    }

    /// Adds reports of the member's number at the end of the log.
    pub fn append(&mut self, member: Member<B>, piece: &Vec<Report>) -> Member<B>
        requires by { All (IsBy member.number) piece.now.items }
        requires room { length self.old.log + length piece.now.items < 2 ^ 64 }
        ensures log { self.new.log ≡ self.old.log ++ piece.now.items }
        ensures members { self.new.members ≡ self.old.members }
        ensures number { result.number ≡ member.number }
        // Its own list grows by the piece, and is then all of its number in the log.
        ensures own { result.own ≡ member.own ++ placed member.number (length self.old.log)
            piece.now.items }
        ensures exact { result.own ≡ own_of member.number self.new.log }
    {
        let Member { seat, of } = member;
        let table = &self.table;
        let shared = &table.shared;
        shared.join_seat::<TakeIn>(&mut self.keeper, seat);
        let len = self.len;
        let longer = len + piece.len() as u64;
        shared.compare_exchange_with::<Append>(&mut self.keeper, 0, len, longer, piece);
        shared.load::<Check>(&mut self.keeper, 0);
        let seat = shared.split_seat::<GiveBack>(&mut self.keeper);
        self.len = longer;
        Member { seat, of }
    }

    /// Shows that the member's own list is all of its number in the log.
    pub fn check(&mut self, member: Member<B>) -> Member<B>
        ensures roll { self.new ≡ self.old }
        ensures member { result ≡ member }
        ensures exact { result.own ≡ own_of member.number self.new.log }
    {
        let Member { seat, of } = member;
        let table = &self.table;
        let shared = &table.shared;
        shared.join_seat::<TakeIn>(&mut self.keeper, seat);
        shared.load::<Check>(&mut self.keeper, 0);
        let seat = shared.split_seat::<GiveBack>(&mut self.keeper);
        Member { seat, of }
    }
}
