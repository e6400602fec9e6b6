//! Lines below that change while a line is being checked.

/// Lines below that change while a line is being checked.
pub const CHANGES: &str = "
# a line below changes while a line is being checked: its check doesn't count
journal 1,C1,2520260302    100000AOL1|AAP1|,
journal 2,C1,2520260302    100000AOL1|AAP2|,

take 0 2 = taken 0
look 0 P2 = seen base
publish 0 = placed
publish 0 = whole
check 0 2 = same
take 1 1 = taken 0
look 1 P1 = seen base
publish 1 = placed
publish 1 = whole
check 0 2 = whole
choose = check 1
check 1 1 = same
check 1 1 = whole
choose = commit 1
commit 1 = committed
run 3 = unfinished 1
commit 2 = later
choose = check 2
check 0 2 = same
check 0 2 = whole
choose = commit 2
commit 2 = committed
choose = end
counts = 2 0 0 2 0
run 3 = output 0 0
# a name that changes after it was compared is found by the next check
journal 1,C1,2520260302    100000AOL1|AAP1|,
journal 2,C1,11NN20260302    101500                  AOL1|AAP1|ABI1|ACx|,

take 0 2 = taken 0
look 0 P1 = seen base
look 0 I1 = seen base
publish 0 = placed
publish 0 = placed
publish 0 = whole
check 0 2 = same
take 1 1 = taken 0
look 1 P1 = seen base
publish 1 = placed
publish 1 = whole
check 0 2 = same
check 0 2 = whole
check 1 1 = same
check 1 1 = whole
commit 1 = committed
run 3 = unfinished 1
commit 2 = later
choose = check 2
check 0 2 = changed P1 base 1.0
take 0 2 = taken 1
look 0 P1 = seen 1.0
look 0 I1 = seen base
publish 0 = placed
publish 0 = placed
publish 0 = whole
check 0 2 = same
check 0 2 = same
check 0 2 = whole
commit 2 = committed
counts = 3 1 0 2 0
run 3 = output 0 1
# a change of a line above doesn't matter
journal 1,C1,2520260302    100000AOL1|AAP1|,
journal 2,C1,2520260302    100000AOL1|AAP1|,

take 0 1 = taken 0
look 0 P1 = seen base
publish 0 = placed
publish 0 = whole
check 0 1 = same
take 1 2 = taken 0
look 1 P1 = seen 1.0
publish 1 = placed
publish 1 = whole
check 0 1 = whole
commit 1 = committed
run 3 = unfinished 1
check 0 2 = same
check 0 2 = whole
commit 2 = committed
counts = 2 0 0 2 0
run 3 = output 0 0
";
