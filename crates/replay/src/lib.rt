// Replaying a recorded review: a list of requests, performed on a session that is opened for it. Its contract is the
// whole promise about runs of calls.
#![tactic(auto)]

ghost use Rattle.std.specs.Prelude.{◌≡◌, length, drop, Ok, Err, OnErr};
ghost use Rattle.replay.specs.Promise.{call_of, asks, answers, events, WorkedOne, WorkedAll, Promise, new_usable};
ghost use Rattle.session.specs.Accounts.{Unopened};
ghost use Rattle.session.specs.Frames.{SameMemory, Unchanged};
ghost use Rattle.session.specs.Keeping.{slots_of, ledger_of, memory_of, size_of, usable_of, Ready, Answered};

use kinds::Kind;
use refusals::Refusal;
use session::Session;
use session::answer::{Answer, Reply};
use tables::Sides;
use terms::normal::Normal;

// What is asked of an open session. It is data and no closure, since a review is recorded, and printed with its answers.
#[derive(Clone, Copy)]
pub enum Ask<'a, K> {
    Post(Sides<'a, K>),
    Query(Sides<'a, K>),
    Mark,
    ReturnToMark,
    Show(usize),
}

// A request: what is asked, and the place for its own answer. What the place holds before has no meaning; it is no Option,
// since after the replay every reader of it would unwrap one that is never empty.
#[derive(Clone, Copy)]
pub struct Request<'a, K> {
    pub ask: Ask<'a, K>,
    pub answer: Answer<K>,
}

// Asks one thing of a session.
fn perform<K: Kind>(session: &mut Session<K>, ask: &Ask<K>, work: &mut [u8]) -> Answer<K>
    ensures told { Answered K.ops session.old (call_of (length work.old) ask.now) result session.new }
    ensures work { (Ready session.old → WorkedOne ask.now work.old work.new) × ((Ready session.old → ⊥) → work.new ≡ work.old) }
    ensures slots { drop (size_of session.old) (slots_of session.new) ≡ drop (size_of session.old) (slots_of session.old) }
    ensures ledger { drop (usable_of session.old) (ledger_of session.new) ≡ drop (usable_of session.old) (ledger_of session.old) }
    ensures memory { SameMemory session.old session.new }
{
    match ask {
        Ask::Post(sides) => {
            session.post(*sides, work)?;
            Ok(Reply::Posted)
        }
        Ask::Query(sides) => {
            let verdict = session.query(*sides, work)?;
            Ok(Reply::Told(verdict))
        }
        Ask::Mark => {
            session.mark()?;
            Ok(Reply::Done)
        }
        Ask::ReturnToMark => {
            session.return_to_mark()?;
            Ok(Reply::Done)
        }
        Ask::Show(variable) => {
            let mut image = Normal::zero();
            session.show(*variable, &mut image)?;
            Ok(Reply::Image(image))
        }
    }
}

// Opens the session with `n` variables, performs the requests in their order, and writes each answer into its request.
pub fn replay<K: Kind>(
    session: &mut Session<K>,
    n: usize,
    requests: &mut [Request<K>],
    work: &mut [u8],
) -> Result<(), Refusal>
    ensures promise { elim result [ Ok x ↦ Promise K.ops n (events (length work.old) (asks requests.new) (answers requests.new)) session.new | Err q ↦ Unopened (memory_of session.old) n q ] }
    ensures asks { asks requests.new ≡ asks requests.old }
    ensures work { elim result [ Ok x ↦ WorkedAll (asks requests.old) work.old work.new | Err q ↦ work.new ≡ work.old ] }
    ensures refused { OnErr result (Unchanged session.old session.new × (requests.new ≡ requests.old)) }
    ensures slots { drop n (slots_of session.new) ≡ drop n (slots_of session.old) }
    ensures ledger { drop (new_usable session.old) (ledger_of session.new) ≡ drop (new_usable session.old) (ledger_of session.old) }
    ensures memory { SameMemory session.old session.new }
{
    session.open(n)?;
    for request in requests.iter_mut() {
        request.answer = perform(session, &request.ask, work);
    }
    Ok(())
}
