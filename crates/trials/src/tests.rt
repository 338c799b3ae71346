// Messages over every kind, compared; and sessions over the kinds for trials.
use crate::{LowByte, Single};
use kinds::Kind;
use kinds::names::Names;
use kinds::pair::Pair;
use refusals::Refusal;
use rows::solve_all;
use session::Session;
use std::test::Fail;
use steps::verdict::Verdict;
use tables::Sides;
use terms::nodes::Node;
use terms::normal::Normal;

// The table in which node 3 is X0 ^ c and node 4 is d ^ X0: they are equivalent where c is the same as d.
fn masked<K: Kind>(c: K, d: K) -> [Node<K>; 5] {
    [
        Node::of_variable(0),
        Node::of_constant(c),
        Node::of_constant(d),
        Node::of_join(0, 1),
        Node::of_join(2, 0),
    ]
}

#[test]
fn pairs_are_the_same_where_both_halves_are(rt: HostRuntime) -> Result<(), Fail> {
    let one = Pair {
        first: Names::one(0),
        second: LowByte { word: 1 },
    };
    let half = Pair {
        first: Names::one(0),
        second: LowByte { word: 2 },
    };
    assert!(rt;
        matches!(
            Sides::new(&masked(one, one), 3, 4).equivalent(1, &mut [9; 5]),
            Ok(true)
        )
    );
    assert!(rt;
        matches!(
            Sides::new(&masked(one, half), 3, 4).equivalent(1, &mut [9; 5]),
            Ok(false)
        )
    );
    Ok(())
}

// With one constant, nothing contradicts anything: two constants are never told apart.
#[test]
fn a_single_constant_never_contradicts(rt: HostRuntime) {
    let table = [Node::of_constant(Single {}), Node::of_variable(0)];
    let mut slots = [Normal::zero()];
    let mut ledger = [Normal::zero(); 2];
    let mut session = Session::new(&mut slots, &mut ledger);
    let mut work = [0; 2];
    assert!(rt; session.open(1).is_ok());
    assert!(rt; session.post(Sides::new(&table, 1, 0), &mut work).is_ok());
    assert!(rt;
        matches!(
            session.query(Sides::new(&table, 0, 0), &mut work),
            Ok(Verdict::Forced)
        )
    );
    assert!(rt; session.post(Sides::new(&table, 0, 1), &mut work).is_ok());
    assert!(rt;
        matches!(
            session.post(Sides::new(&table, 0, 0), &mut work),
            Err(Refusal::LedgerFull)
        )
    );
}

// An image is kept up to sameness: the low byte decides.
#[test]
fn a_session_goes_by_sameness(rt: HostRuntime) {
    let table = [
        Node::of_variable(0),
        Node::of_constant(LowByte { word: 0x1_07 }),
        Node::of_constant(LowByte { word: 0x2_07 }),
        Node::of_constant(LowByte { word: 0x1_08 }),
    ];
    let mut slots = [Normal::zero()];
    let mut ledger = [Normal::zero(); 2];
    let mut session = Session::new(&mut slots, &mut ledger);
    let mut work = [0; 4];
    assert!(rt; session.open(1).is_ok());
    assert!(rt; session.post(Sides::new(&table, 0, 1), &mut work).is_ok());
    assert!(rt;
        matches!(
            session.query(Sides::new(&table, 0, 2), &mut work),
            Ok(Verdict::Forced)
        )
    );
    assert!(rt;
        matches!(
            session.post(Sides::new(&table, 0, 3), &mut work),
            Err(Refusal::Contradiction)
        )
    );
}

// A return along the trail gives the images that solving the ledger from the start gives.
#[test]
fn a_return_is_as_good_as_starting_over(rt: HostRuntime) {
    let table: [Node<Names>; 3] = [
        Node::of_variable(0),
        Node::of_variable(1),
        Node::of_constant(Names::one(5)),
    ];
    let mut slots = [Normal::zero(); 2];
    let mut ledger = [Normal::zero(); 4];
    let mut session = Session::new(&mut slots, &mut ledger);
    let mut work = [0; 3];
    assert!(rt; session.open(2).is_ok());
    assert!(rt; session.post(Sides::new(&table, 0, 1), &mut work).is_ok());
    assert!(rt; session.mark().is_ok());
    assert!(rt; session.post(Sides::new(&table, 0, 2), &mut work).is_ok());
    assert!(rt; session.return_to_mark().is_ok());
    let mut shown = Normal::zero();
    assert!(rt; session.show(1, &mut shown).is_ok());
    let mut row = [Normal::zero(); 2];
    solve_all(
        &mut row,
        &[Normal::of_variable(0).join(Normal::of_variable(1))],
    );
    assert!(rt; shown.same(row[1]));
}
