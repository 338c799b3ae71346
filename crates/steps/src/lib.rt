// A substitution as a row of normal forms, the image of variable v at place v: what it makes of a normal form, and how
// one more normal form that is to be zero changes it, with what it takes to change it back. A row has an image for each
// of its variables; any other variable counts for nothing. These are the steps below a session: those that write ask
// that a row has no more places than there can be variables. A row is a slice, so that steps work on the memory that
// was lent to a session; a slice has no place for a fact about its length, so each step that needs it asks for it.
#![tactic(auto)]

ghost use Rattle.std.specs.Prelude.{◌≡◌, ℕ, ◌<◌, ◌≤◌, List, length};
ghost use Rattle.steps.specs.Rows.{images, EqualImages, AllFree, SolvedRow, Says, Remains, judged_as, taken_as, Grown};
ghost use Rattle.solving.specs.SolvedForms.{binding};
ghost use Rattle.solving.specs.Substitutions.{apply as substituted};
ghost use Rattle.steps.specs.Trails.{unbinding, Undoable};
ghost use Rattle.terms.specs.Limits.{most_variables};
ghost use Rattle.terms.specs.NormalForms.{SameNormal};
ghost use Rattle.terms.specs.Sets.{has};
ghost use Rattle.terms.specs.declared.normal.Normal.{Normal as Form};

use kinds::Kind;
use terms::normal::Normal;
use terms::sets::VarSet;

pub mod verdict;

// What is left of a normal form that is to be zero once the images are put in: nothing, a constant other than zero, or
// variables. Of these the highest is the pivot, and what is left is the remainder. Three answers and no Option or Result,
// since none of them is an error or a lack; `Taken` and `Verdict` have a case for each, with what is known by then.
#[derive(Clone, Copy)]
pub enum Judgement<K> {
    Forced,
    Never,
    Open(usize, Normal<K>),
}

// What a normal form did to a row: nothing, as it follows; nothing, as it clashes; or it bound a variable, and changed
// the images of those in the set. Again three answers: that it clashes is an error only to the caller who wants it in.
#[derive(Clone, Copy, Debug, PartialEq, Eq)]
pub enum Taken {
    Follows,
    Clashes,
    Binds(usize, VarSet),
}

// A binding that was made: the variable, the number of the ledger entry that bound it, and the variables whose images
// changed.
#[derive(Clone, Copy, Debug, Default, PartialEq, Eq)]
pub struct Binding {
    pub variable: usize,
    pub entry: usize,
    pub changed: VarSet,
}

// Makes each variable its own image. Asks that there can be so many.
pub fn restart<K: Kind>(row: &mut [Normal<K>])
    requires { length row.old ≤ most_variables }
    ensures { AllFree K.ops (length row.old) row.new }
{
    for (v, image) in row.iter_mut().enumerate() {
        *image = Normal::of_variable(v);
    }
}

// `a` with the images put in for its variables, one join for each.
fn apply<K: Kind>(row: &[Normal<K>], a: Normal<K>) -> Normal<K>
    ensures { SameNormal K.ops result (substituted K.ops (length row.now) (images K.ops row.now) a) }
{
    let mut sum = Normal::of_constant(a.constant);
    let mut rest = a.vars;
    while let Some(v) = rest.pop_highest() {
        if v < row.len() {
            sum = sum.join(row[v]);
        }
    }
    sum
}

// What a normal form that is to be zero says, after whatever ledger the row is the solved form of.
pub fn judge<K: Kind>(row: &[Normal<K>], a: Normal<K>) -> Judgement<K>
    ensures verdict { (rs : List (Form K)) → SolvedRow K.ops (length row.now) rs row.now → Says K.ops (length row.now) rs a (judged_as result) }
    ensures remains { Remains K.ops (length row.now) row.now a result }
{
    let remainder = apply(row, a);
    match remainder.vars.highest() {
        Some(pivot) => Judgement::Open(pivot, remainder),
        None if remainder.same(Normal::zero()) => Judgement::Forced,
        None => Judgement::Never,
    }
}

// Binds the pivot by a remainder that has it: joins the remainder into every image that has the pivot, its own
// included, and gives the variables whose images changed. Asks that there can be so many variables.
fn bind<K: Kind>(row: &mut [Normal<K>], pivot: usize, remainder: Normal<K>) -> VarSet
    requires { length row.old ≤ most_variables }
    ensures changed { (v : ℕ) → v < length row.old → has result v ≡ has (images K.ops row.old v).vars pivot }
    ensures bound { EqualImages (length row.old) (images K.ops row.new) (binding K.ops pivot remainder (images K.ops row.old)) }
{
    let mut changed = VarSet::empty();
    for (v, image) in row.iter_mut().enumerate() {
        if image.vars.contains(pivot) {
            *image = image.join(remainder);
            changed = changed.symmetric_difference(VarSet::singleton(v));
        }
    }
    changed
}

// One more normal form that is to be zero: it follows, it clashes and the row stays as it was, or it binds a variable.
// A caller that only wants the solved form may ignore what is told. Asks that there can be so many variables.
pub fn take_in<K: Kind>(row: &mut [Normal<K>], a: Normal<K>) -> Taken
    requires { length row.old ≤ most_variables }
    ensures verdict { (rs : List (Form K)) → SolvedRow K.ops (length row.old) rs row.old → Says K.ops (length row.old) rs a (taken_as result) }
    ensures grown { (rs : List (Form K)) → SolvedRow K.ops (length row.old) rs row.old → Grown K.ops (length row.old) rs a row.new result }
    ensures undoable { Undoable K.ops (length row.old) row.old row.new result }
{
    match judge(row, a) {
        Judgement::Forced => Taken::Follows,
        Judgement::Never => Taken::Clashes,
        Judgement::Open(pivot, remainder) => {
            let changed = bind(row, pivot, remainder);
            Taken::Binds(pivot, changed)
        }
    }
}

// Takes the latest binding back, of `p`: the remainder, which is `p` joined with its own image, is joined out of the
// images that it changed. Asks that `p` is one of the row's variables and that there can be so many.
pub fn unbind<K: Kind>(row: &mut [Normal<K>], p: usize, changed: VarSet)
    requires variable { p < length row.old }
    requires size { length row.old ≤ most_variables }
    ensures { EqualImages (length row.old) (images K.ops row.new) (unbinding K.ops p changed (images K.ops row.old)) }
{
    let variable = Normal::of_variable(p);
    let remainder = variable.join(row[p]);
    let mut rest = changed;
    while let Some(v) = rest.pop_highest() {
        if v < row.len() {
            row[v] = row[v].join(remainder);
        }
    }
}
