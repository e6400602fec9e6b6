//! Calls that are refused.

/// Calls that are refused. What comes after them shows that they changed nothing.
pub const REFUSED: &str = "
# steps that are nobody's
journal 1,C1,1920260302    101500AOL1|ABI1|ACx|CHtorn|,

take 64 1 = idle
take 0 0 = idle
take 0 2 = idle
look 0 I1 = idle
look 64 I1 = idle
check 0 1 = idle
check 64 1 = idle
check 0 0 = idle
check 0 7 = idle
commit 0 = idle
commit 1 = later
commit 7 = idle
begin 64 = take 1: idle
take 0 1 = taken 0
take 0 1 = idle
take 1 1 = idle
begin 0 = nothing
look 1 I1 = idle
look 0 I1 = seen base
look 0 I1 = idle
check 0 1 = idle
commit 1 = later
publish 1 0 = idle
publish 64 0 = idle
publish 0 = placed
look 0 P1 = idle
take 0 1 = idle
check 0 1 = idle
commit 1 = later
publish 0 = whole
publish 0 = no version
commit 1 = later
check 64 1 = idle
check 0 1 = same
commit 1 = later
take 0 1 = idle
take 1 1 = idle
check 1 1 = idle
begin 0 = nothing
check 0 1 = whole
commit 1 = committed
commit 1 = idle
check 0 1 = idle
take 0 1 = idle
begin 0 = end
counts = 1 0 0 1 0
run 3 = output 0
# a worker with a line in hand takes and checks no other
journal 1,C1,2520260302    100000AOL1|AAP1|,
journal 2,C1,2520260302    100000AOL1|AAP2|,
journal 3,C1,2520260302    100000AOL1|AAP2|,

take 0 1 = taken 0
look 0 P1 = seen base
publish 0 = placed
publish 0 = whole
take 0 2 = taken 0
check 0 1 = idle
take 0 3 = idle
begin 0 = check 1: idle
check 1 1 = same
check 0 1 = idle
check 1 2 = idle
take 1 3 = idle
begin 1 = take 3: idle
commit 1 = later
check 1 1 = whole
look 0 P2 = seen base
publish 0 = placed
check 1 2 = idle
commit 2 = later
commit 1 = committed
run 3 = unfinished 1
counts = 2 0 0 1 1
run 3 = unfinished 1
# a version of another line, and one for a line that is whole
journal 1,C1,2520260302    100000AOL1|AAP1|,
journal 2,C1,9900302.00AY1AZFCA5,

take 1 1 = taken 0
look 1 P1 = seen base
take 0 2 = taken 0
publish 1 0 = stranger
publish 2 0 = idle
publish 0 1 = stranger
publish 1 = placed
publish 1 0 = stranger
publish 1 = whole
publish 1 0 = idle
publish 0 = whole
counts = 2 0 0 0 2
# the clock is at its end: no placing
starting 0 18446744073709551615
journal 1,C1,1920260302    101500AOL1|ABI1|ACx|CHtorn|,
journal 2,C1,9900302.00AY1AZFCA5,

take 0 1 = taken 0
look 0 I1 = seen base
take 1 2 = taken 0
publish 0 1 = stranger
publish 0 = clock spent
publish 0 = clock spent
publish 2 0 = idle
publish 1 = whole
counts = 2 0 0 0 2
clock = 18446744073709551615
# the clock comes to its end: a failed check has no change left for its marks, and a line without entries needs none
starting 0 18446744073709551612
journal 1,C1,2520260302    100000AOL1|AAP1|,
journal 2,C1,11NN20260302    101500                  AOL1|AAP1|ABI1|ACx|,
journal 3,C1,15-20260302    101500AAP2|ABI1|,

take 0 2 = taken 0
look 0 P1 = seen base
look 0 I1 = seen base
publish 0 = placed
publish 0 = placed
publish 0 = whole
take 0 3 = taken 0
look 0 P2 = seen base
look 0 I1 = seen 2.0
publish 0 = whole
take 0 1 = taken 0
look 0 P1 = seen base
publish 0 = placed
clock = 18446744073709551615
publish 0 = whole
check 0 1 = same
check 0 1 = whole
check 0 2 = clock spent
check 1 2 = clock spent
commit 1 = committed
commit 2 = later
check 0 3 = same
check 0 3 = same
check 0 3 = whole
counts = 3 0 0 1 2
clock = 18446744073709551615
# no attempt is left
starting 4294967295 0
journal 1,C1,2520260302    100000AOL1|AAP1|,
journal 2,C1,11NN20260302    101500                  AOL1|AAP1|ABI1|ACx|,
journal 3,C1,09N20260302    11000020260302    110000AOL1|ABI1|,

take 0 2 = taken 4294967295
look 0 P1 = seen base
look 0 I1 = seen base
publish 0 = placed
publish 0 = placed
publish 0 = whole
take 1 1 = taken 4294967295
look 1 P1 = seen base
publish 1 = placed
publish 1 = whole
check 0 2 = changed P1 base 1.4294967295
take 64 2 = idle
take 0 2 = attempts 2
take 0 2 = attempts 2
check 0 1 = same
take 0 2 = idle
check 0 1 = whole
commit 1 = committed
begin 0 = take 2: attempts 2
counts = 2 1 0 1 0
play on = 12 steps, then attempts 2
";
