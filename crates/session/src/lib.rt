// The session: equations are posted, queried and withdrawn, and the images of the variables are kept solved, over memory
// that its caller lends. What each call means is said by a plain account of standing equations and marks; what ties the
// memory to that account is `Keeps`. No call asks anything of its caller.
#![tactic(auto)]

ghost use Rattle.std.specs.Prelude.{length};
ghost use Rattle.std.specs.Option.{ForSome};
ghost use Rattle.heads.specs.Heads.{Fit};

use crate::answer::Receipt;
use heads::head::Head;
use heads::trail::Trail;
use kinds::Kind;
use refusals::Refusal;
use steps::verdict::Verdict;
use steps::{Judgement, Taken, judge, restart, take_in, unbind};
use tables::Sides;
use terms::normal::Normal;
use terms::sets::MOST_VARIABLES;

pub mod answer;
pub mod compare;

// The most ledger entries that are used.
pub const MOST_ENTRIES: usize = 1024;

// A session over lent memory: a slot for the image of each variable, and a ledger entry for each standing equation. An
// open one has a head, and its head fits the memory. How much of the slots and the ledger is in use stands in the head
// and not in their lengths, since the memory is the caller's and may be longer than a session can use.
#[derive(Drop)]
pub struct Session<'m, K> {
    head: Option<Head>,
    trail: Trail,
    slots: &'m mut [Normal<K>],
    ledger: &'m mut [Normal<K>],
    ghost fits: { ForSome head (λ h. Fit h (record { slots = length slots.now; ledger = length ledger.now })) },
}

// The clauses `refused`, `slots`, `ledger` and `memory` say what a call leaves as it was. They relate what is before and
// after, which no type can keep, so each call says them.
impl<'m, K: Kind> Session<'m, K> {
    ghost use Rattle.std.specs.Prelude.{◌≡◌, ◌≤◌, drop, Ok, Err, MatchResult, OnOk, OnErr, Some, None};
    ghost use Rattle.refusals.specs.declared.Refusal.TheVariants.{Closed};
    ghost use Rattle.session.specs.Accounts.{open_with, use_of, post, query, mark, return_to_mark, show};
    ghost use Rattle.session.specs.Frames.{SameMemory, Unchanged, OnlyNext, PastInput};
    ghost use Rattle.session.specs.Keeping.{slots_of, ledger_of, size_of, Ready, Opens, Answered, Judges, Posts, Unwound, reply, posted_reply, told_reply, shown_reply};
    ghost use Rattle.steps.specs.Rows.{images, AllFree};
    ghost use Rattle.tables.specs.Calls.{input_of, Worked};
    ghost use Rattle.terms.specs.Limits.{most_variables};

    // A closed session over memory that is lent for its life.
    pub fn new(slots: &'m mut [Normal<K>], ledger: &'m mut [Normal<K>]) -> Session<'m, K>
        ensures closed { Ready result → ⊥ }
        ensures slots { slots_of result ≡ slots.old }
        ensures ledger { ledger_of result ≡ ledger.old }
    {
        Session {
            head: None,
            trail: Trail::empty(),
            slots,
            ledger,
        }
    }

    // The head, which an open session has. A closed one is refused.
    fn opened(&self) -> Result<&Head, Refusal>
        ensures { MatchResult result (λ h. self.now.head ≡ Some h.now) (λ q. (q ≡ Closed) × (self.now.head ≡ None)) }
    {
        self.head.as_ref().ok_or(Refusal::Closed)
    }

    // Opens the session, or starts it anew, with `n` variables, each its own image.
    pub fn open(&mut self, n: usize) -> Result<(), Refusal>
        ensures told { Answered K.ops self.old (open_with n) (reply result) self.new }
        ensures opens { Opens K.ops self.old n result self.new }
        ensures images { OnOk result (AllFree K.ops n (slots_of self.new)) }
        ensures refused { OnErr result (Unchanged self.old self.new) }
        ensures slots { drop n (slots_of self.new) ≡ drop n (slots_of self.old) }
        ensures ledger { ledger_of self.new ≡ ledger_of self.old }
        ensures memory { SameMemory self.old self.new }
    {
        if n == 0 || n > MOST_VARIABLES {
            return Err(Refusal::BadSize);
        }
        if self.slots.len() < n {
            return Err(Refusal::FewSlots);
        }
        let usable = self.ledger.len().min(MOST_ENTRIES);
        restart(&mut self.slots[..n]);
        self.head = Some(Head::new(n, usable));
        self.trail = Trail::empty();
        Ok(())
    }

    // Marks the standing equations, to return to them.
    pub fn mark(&mut self) -> Result<(), Refusal>
        ensures told { Answered K.ops self.old (use_of mark) (reply result) self.new }
        ensures refused { OnErr result (Unchanged self.old self.new) }
        ensures slots { slots_of self.new ≡ slots_of self.old }
        ensures ledger { ledger_of self.new ≡ ledger_of self.old }
        ensures memory { SameMemory self.old self.new }
    {
        let Some(head) = &mut self.head else {
            return Err(Refusal::Closed);
        };
        head.mark()
    }

    // Puts the image of a variable into the record, which is the caller's and keeps what it holds when the call is refused.
    pub fn show(&self, variable: usize, record: &mut Normal<K>) -> Result<(), Refusal>
        ensures told { Answered K.ops self.now (use_of (show variable)) (shown_reply result «record».new) self.now }
        ensures record { MatchResult result (λ _. «record».new ≡ images K.ops (slots_of self.now) variable) (λ _. «record».new ≡ «record».old) }
    {
        if variable >= self.opened()?.size {
            return Err(Refusal::NothingToShow);
        }
        *record = self.slots[variable];
        Ok(())
    }

    // Tells which of the solutions make a normal form zero.
    fn query_form(&self, form: Normal<K>) -> Result<Verdict, Refusal>
        ensures { MatchResult result (Judges K.ops self.now form) (λ q. (q ≡ Closed) × (self.now.head ≡ None)) }
    {
        let n = self.opened()?.size;
        Ok(match judge(&self.slots[..n], form) {
            Judgement::Forced => Verdict::Forced,
            Judgement::Never => Verdict::Never,
            Judgement::Open(_, _) => Verdict::Open,
        })
    }

    // Tells which of the solutions meet the equation of two sides of a table.
    pub fn query(&self, sides: Sides<K>, work: &mut [u8]) -> Result<Verdict, Refusal>
        ensures told { Answered K.ops self.now (use_of (query (input_of sides.entry (length work.old)))) (told_reply result) self.now }
        ensures work { Worked (PastInput self.now (input_of sides.entry (length work.old))) (length sides.entry.table.now) work.old work.new }
    {
        let form = sides.joined_form(self.opened()?.size, work)?;
        self.query_form(form)
    }

    // Adds the equation that a normal form is zero, unless the ledger is full or no solution meets it.
    fn post_form(&mut self, form: Normal<K>) -> Result<Receipt, Refusal>
        ensures told { Posts K.ops self.old form result self.new }
        ensures refused { OnErr result (Unchanged self.old self.new) }
        ensures slots { drop (size_of self.old) (slots_of self.new) ≡ drop (size_of self.old) (slots_of self.old) }
        ensures ledger { OnlyNext self.old self.new }
        ensures memory { SameMemory self.old self.new }
    {
        let Some(head) = &mut self.head else {
            return Err(Refusal::Closed);
        };
        let entry = head.standing;
        if entry >= head.usable {
            return Err(Refusal::LedgerFull);
        }
        let taken = take_in(&mut self.slots[..head.size], form);
        if let Taken::Clashes = taken {
            return Err(Refusal::Contradiction);
        }
        // the field by a variable, since the borrow check does not cover it while the head is lent from another
        let ledger: &mut [Normal<K>] = self.ledger;
        ledger[entry] = form;
        self.trail.note(taken, entry);
        head.standing = entry + 1;
        Ok(Receipt {})
    }

    // Adds the equation of two sides of a table to the standing ones.
    pub fn post(&mut self, sides: Sides<K>, work: &mut [u8]) -> Result<Receipt, Refusal>
        ensures told { Answered K.ops self.old (use_of (post (input_of sides.entry (length work.old)))) (posted_reply result) self.new }
        ensures work { Worked (PastInput self.old (input_of sides.entry (length work.old))) (length sides.entry.table.now) work.old work.new }
        ensures refused { OnErr result (Unchanged self.old self.new) }
        ensures slots { drop (size_of self.old) (slots_of self.new) ≡ drop (size_of self.old) (slots_of self.old) }
        ensures ledger { OnlyNext self.old self.new }
        ensures memory { SameMemory self.old self.new }
    {
        let form = sides.joined_form(self.opened()?.size, work)?;
        self.post_form(form)
    }

    // Takes the bindings back that ledger entries from `mark` on made, the latest first. Asks that there can be `n`
    // variables and that the slots have their images.
    fn unwind(&mut self, n: usize, mark: usize)
        requires size { n ≤ most_variables }
        requires room { n ≤ length (slots_of self.old) }
        ensures unwound { Unwound K.ops n self.old mark self.new }
        ensures head { self.new.head ≡ self.old.head }
        ensures slots { drop n (slots_of self.new) ≡ drop n (slots_of self.old) }
        ensures ledger { ledger_of self.new ≡ ledger_of self.old }
        ensures memory { SameMemory self.old self.new }
    {
        while let Some(binding) = self.trail.pop_since(mark) {
            if binding.variable < n {
                unbind(&mut self.slots[..n], binding.variable, binding.changed);
            }
        }
    }

    // Returns to the latest mark, which goes: the equations posted since are withdrawn.
    pub fn return_to_mark(&mut self) -> Result<(), Refusal>
        ensures told { Answered K.ops self.old (use_of return_to_mark) (reply result) self.new }
        ensures refused { OnErr result (Unchanged self.old self.new) }
        ensures slots { drop (size_of self.old) (slots_of self.new) ≡ drop (size_of self.old) (slots_of self.old) }
        ensures ledger { ledger_of self.new ≡ ledger_of self.old }
        ensures memory { SameMemory self.old self.new }
    {
        let Some(head) = &mut self.head else {
            return Err(Refusal::Closed);
        };
        let n = head.size;
        let mark = head.unmark()?;
        if mark < head.standing {
            head.standing = mark;
            self.unwind(n, mark);
        }
        Ok(())
    }
}
