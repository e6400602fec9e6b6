//! Calls of a shared board.

/// What the steps of a shared board give.
pub const STEPS: &str = "
# a loan is published but for its end before the first line, which gives its item other words, is
journal 1,C1,1920260302    101500AOL1|ABI1|ACx|CHtorn|,
journal 2,C1,11NN20260302    101500                  AOL1|AAP1|ABI1|ACx|,
journal 3,C1,2520260302    101500AOL1|AAP1|,

take 0 2 = taken 0
look 0 P1 = seen base
look 0 I1 = seen base
publish 0 = placed
publish 0 = placed
publish 0 = whole
take 0 1 = taken 0
look 0 I1 = seen base
publish 0 = placed

publish_more 0 = whole
publish_more 0 = none
begin 1 = check 1: same
check 1 1 = whole
begin 1 = commit 1: committed
begin 1 = check 2: same
check 1 2 = changed I1 base 1.0
check 1 2 = idle
begin 0 = take 2: taken 1
begin 1 = take 3: taken 0
begin 2 = nothing
look 1 P1 = suspect 2
look 1 P1 = idle
look 0 I1 = seen 1.0
publish 0 = stranger
lines committed: 1
";

/// Two faults, and each step after them.
pub const FAULTS: &str = "
# two faults are left while a worker has a line in hand
journal 1,C1,1920260302    101500AOL1|ABI1|ACx|CHtorn|,
journal 2,C1,11NN20260302    101500                  AOL1|AAP1|ABI1|ACx|,

choose = take 1

begin 0 = take 1: taken 0
leave memory = left
leave clock = left
begin 1 = left memory
look 0 I1 = left memory
publish_more 0 = left memory
check 0 1 = left memory
publish 0 = left memory
run workers = memory
lines committed: 0
";
