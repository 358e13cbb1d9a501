//! Texts that are cut at each byte.

use crate::runs::{JOB, tell};
use mcs_base::Text;
use std::alloc::Global;
use std::sync::Wait;
use std::thread::Threads;

/// Two contexts and two rules, a line each.
const TEXT: &str = "context c1 program { a. }
context c2 program { :- p. :- q. }
bridge r1: c2:p if c1:a.
bridge r2: c2:q if not c1:b.
";

/// What is told of the text that is cut to each length, from 0 to 115: the status, and what is
/// listed or noted. It is listed where it is cut before the first context, after one, after the
/// other, or after a rule. Else the fault is the end, or what is left before it: the name that is
/// left of a word, where no name may stand; the `:` that is left of a `:-`; and the name of a
/// context that is cut, or what is left of a `not`, where no context has the name.
const TOLD: &str = "0 mcs 1: 0 contexts, 0 rules, 0 variables
equilibrium 1: {} applicable {}
consistent
end: 1 equilibria, need 0
3 mcs: refused: F1 at 0
3 mcs: refused: F1 at 0
3 mcs: refused: F1 at 0
3 mcs: refused: F1 at 0
3 mcs: refused: F1 at 0
3 mcs: refused: F1 at 0
3 mcs: refused: F1 at 7
3 mcs: refused: F1 at 8
3 mcs: refused: F1 at 9
3 mcs: refused: F1 at 10
3 mcs: refused: F1 at 11
3 mcs: refused: F1 at 11
3 mcs: refused: F1 at 11
3 mcs: refused: F1 at 11
3 mcs: refused: F1 at 11
3 mcs: refused: F1 at 11
3 mcs: refused: F1 at 11
3 mcs: refused: F1 at 18
3 mcs: refused: F1 at 19
3 mcs: refused: F1 at 20
3 mcs: refused: F1 at 21
3 mcs: refused: F1 at 22
3 mcs: refused: F1 at 23
3 mcs: refused: F1 at 24
0 mcs 1: 1 contexts, 0 rules, 0 variables
equilibrium 1: {} applicable {}
consistent
end: 1 equilibria, need 1
0 mcs 1: 1 contexts, 0 rules, 0 variables
equilibrium 1: {} applicable {}
consistent
end: 1 equilibria, need 1
3 mcs: refused: F1 at 26
3 mcs: refused: F1 at 26
3 mcs: refused: F1 at 26
3 mcs: refused: F1 at 26
3 mcs: refused: F1 at 26
3 mcs: refused: F1 at 26
3 mcs: refused: F1 at 33
3 mcs: refused: F1 at 34
3 mcs: refused: F1 at 35
3 mcs: refused: F1 at 36
3 mcs: refused: F1 at 37
3 mcs: refused: F1 at 37
3 mcs: refused: F1 at 37
3 mcs: refused: F1 at 37
3 mcs: refused: F1 at 37
3 mcs: refused: F1 at 37
3 mcs: refused: F1 at 37
3 mcs: refused: F1 at 44
3 mcs: refused: F1 at 45
3 mcs: refused: F1 at 46
3 mcs: refused: F1 at 47
3 mcs: refused: F1 at 47
3 mcs: refused: F1 at 49
3 mcs: refused: F1 at 50
3 mcs: refused: F1 at 51
3 mcs: refused: F1 at 52
3 mcs: refused: F1 at 53
3 mcs: refused: F1 at 53
3 mcs: refused: F1 at 55
3 mcs: refused: F1 at 56
3 mcs: refused: F1 at 57
3 mcs: refused: F1 at 58
3 mcs: refused: F1 at 59
0 mcs 1: 2 contexts, 0 rules, 0 variables
equilibrium 1: {} applicable {}
consistent
end: 1 equilibria, need 2
0 mcs 1: 2 contexts, 0 rules, 0 variables
equilibrium 1: {} applicable {}
consistent
end: 1 equilibria, need 2
3 mcs: refused: F1 at 61
3 mcs: refused: F1 at 61
3 mcs: refused: F1 at 61
3 mcs: refused: F1 at 61
3 mcs: refused: F1 at 61
3 mcs: refused: F1 at 67
3 mcs: refused: F1 at 68
3 mcs: refused: F1 at 69
3 mcs: refused: F1 at 70
3 mcs: refused: F1 at 71
3 mcs: refused: F1 at 72
3 mcs: refused: F2 at 72
3 mcs: refused: F1 at 74
3 mcs: refused: F1 at 75
3 mcs: refused: F1 at 76
3 mcs: refused: F1 at 77
3 mcs: refused: F1 at 77
3 mcs: refused: F1 at 79
3 mcs: refused: F1 at 80
3 mcs: refused: F2 at 80
3 mcs: refused: F1 at 82
3 mcs: refused: F1 at 83
3 mcs: refused: F1 at 84
0 mcs 1: 2 contexts, 1 rules, 1 variables
inconsistent
end: 0 equilibria, need 2
0 mcs 1: 2 contexts, 1 rules, 1 variables
inconsistent
end: 0 equilibria, need 2
3 mcs: refused: F1 at 86
3 mcs: refused: F1 at 86
3 mcs: refused: F1 at 86
3 mcs: refused: F1 at 86
3 mcs: refused: F1 at 86
3 mcs: refused: F1 at 92
3 mcs: refused: F1 at 93
3 mcs: refused: F1 at 94
3 mcs: refused: F1 at 95
3 mcs: refused: F1 at 96
3 mcs: refused: F1 at 97
3 mcs: refused: F2 at 97
3 mcs: refused: F1 at 99
3 mcs: refused: F1 at 100
3 mcs: refused: F1 at 101
3 mcs: refused: F1 at 102
3 mcs: refused: F1 at 102
3 mcs: refused: F1 at 104
3 mcs: refused: F1 at 105
3 mcs: refused: F2 at 105
3 mcs: refused: F2 at 105
3 mcs: refused: F1 at 108
3 mcs: refused: F1 at 109
3 mcs: refused: F2 at 109
3 mcs: refused: F1 at 111
3 mcs: refused: F1 at 112
3 mcs: refused: F1 at 113
0 mcs 1: 2 contexts, 2 rules, 2 variables
inconsistent
end: 0 equilibria, need 2
0 mcs 1: 2 contexts, 2 rules, 2 variables
inconsistent
end: 0 equilibria, need 2
";

/// Whether this is told.
fn is_told<R: Threads + Wait + Sync>(rt: &R, alloc: Global) -> bool {
    let mut told = Text::new(alloc);
    for length in 0..TEXT.len() + 1 {
        let front = TEXT.as_bytes().get(..length).unwrap_or(b"");
        tell(rt, alloc, JOB, (front, b""), &mut told);
    }
    let is_told = told.bytes() == TOLD.as_bytes();
    drop(told);
    is_told
}

#[test]
fn a_text_that_is_cut_is_told_to_be(rt: HostRuntime) {
    assert!(rt; is_told(&rt, rt.alloc()));
}
