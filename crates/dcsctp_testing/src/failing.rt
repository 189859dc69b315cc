//! Tests of the runners: what isn't as a row says fails the run.

use crate::{Row, Takes, run_steps, run_text};

#[derive(Drop)]
struct Number(u64);

impl Takes<u64> for Number {
    fn take(&mut self, row: &mut Row, step: u64) {
        row.same(self.0, step);
    }
}

impl Takes<&'static str> for Number {
    fn take(&mut self, row: &mut Row, keyword: &'static str) {
        match keyword {
            "begin" => self.0 = row.number(),
            "zero" => row.answers("so", self.0 == 0),
            _ => row.check("is", self.0 as u128),
        }
    }
}

#[test]
fn a_table_ends_at_its_first_fault(rt: HostRuntime) {
    static STEPS: &[(&str, u64)] = &[("first", 3), ("second", 4), ("third", 5)];
    let ended = run_steps(rt.alloc(), &mut Number(3), STEPS);
    let fault = ended.err().expect(&rt, "a fault");
    assert_eq!(&rt; fault.as_str(), "row 2, second: found 3 in place of 4");
}

const TEXT: &str = "\
# a wrong number, and what depends on it
begin 3
it is 3
it is 4
it is 5
# no number, and what is left over
begin three
begin 3
it has 3
# a wrong answer, and none
begin 3
zero so 0
zero so 1
begin 3
zero";

const FAULTS: &str = "\
a wrong number, and what depends on it: row 4, it is 4: is 3 in place of 4
no number, and what is left over: row 7, begin three: found \"three\" in place of \"a number\"
no number, and what is left over: row 9, it has 3: left over \"has 3\" in place of \"\"
a wrong answer, and none: row 13, zero so 1: so 0 in place of 1
a wrong answer, and none: row 15, zero: found \"\" in place of \"so\"";

#[test]
fn a_text_goes_on_where_it_begins_anew(rt: HostRuntime) {
    let ended = run_text(rt.alloc(), &mut Number(0), TEXT);
    let faults = ended.err().expect(&rt, "faults");
    assert_eq!(&rt; faults.as_str(), FAULTS);
}
