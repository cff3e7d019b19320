// Which variables equalities join, each set of joined variables shown by its lowest number, and whether differences
// agree with them.
#![tactic(auto)]

ghost use Rattle.std.specs.Prelude.{◌≡◌, ◌≤◌, length, MatchBool};
ghost use Rattle.std.specs.List.{AllByRecursion};
ghost use Rattle.joining.specs.Joins.{Fits, relabelled, joined_by, labelled, agrees, join_holds, Lowest, Holds, NoWorld};

use theory::stack::Record;

// Two variables that are to be equal, or are to differ. The code names the literal that asks for it, which joining does
// not look at.
#[derive(Clone, Copy, PartialEq, Eq, Debug)]
pub struct Join {
    pub code: u16,
    pub a: u16,
    pub b: u16,
    pub equal: bool,
}

impl Record for Join {
    ghost coded = { λ j. j.code };

    fn code(&self) -> u16 {
        self.code
    }
}

// Gives every variable labelled `from` the label `to`.
fn relabel(from: i64, to: i64, labels: &mut [i64])
    ensures { labels.new ≡ relabelled from to labels.old }
{
    for label in labels.iter_mut() {
        if *label == from {
            *label = to;
        }
    }
}

// Joins what two variables are joined with: the lower of their labels stays.
fn join_one(join: Join, labels: &mut [i64])
    requires { Fits (length labels.old) join }
    ensures { labels.new ≡ joined_by join labels.old }
{
    if join.equal {
        let a = labels[join.a as usize];
        let b = labels[join.b as usize];
        relabel(a.max(b), a.min(b), labels);
    }
}

// Whether what a join says holds of the labels.
fn agrees_with(join: Join, labels: &[i64]) -> bool
    requires { Fits (length labels.now) join }
    ensures { result ≡ join_holds labels.now join }
{
    (labels[join.a as usize] == labels[join.b as usize]) == join.equal
}

// Writes for every variable the lowest variable that equalities join to it, itself included. Answers whether all joins
// hold of these numbers; where not, they hold of no numbers. An error would carry nothing, so a `Result` would say no more
// than yes or no.
pub fn join_all(joins: &[Join], labels: &mut [i64]) -> bool
    requires fits { AllByRecursion (Fits (length labels.old)) joins.now }
    requires few { length labels.old ≤ 512 }
    ensures after { labels.new ≡ labelled joins.now (length labels.old) }
    ensures lowest { Lowest joins.now labels.new }
    ensures agreed { result ≡ agrees joins.now labels.new }
    ensures exact { MatchBool result (Holds joins.now labels.new) (NoWorld joins.now (length labels.old)) }
{
    for (x, label) in labels.iter_mut().enumerate() {
        *label = x as i64;
    }
    for join in joins {
        join_one(*join, labels);
    }
    for join in joins {
        if !agrees_with(*join, labels) {
            return false;
        }
    }
    true
}
