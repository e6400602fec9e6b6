//! The choice of a free worker.

/// The choice of a free worker.
pub const CHOICES: &str = "
# commit, check, take, nothing, end
journal 1,C1,2520260302    100000AOL1|AAP1|,
journal 2,C1,2520260302    100000AOL1|AAP2|,

choose = take 1
begin 0 = take 1: taken 0
choose = take 2
begin 1 = take 2: taken 0
choose = nothing
begin 2 = nothing
look 1 P2 = seen base
publish 1 = placed
publish 1 = whole
choose = check 2
begin 2 = check 2: same
choose = nothing
check 2 2 = whole
choose = nothing
look 0 P1 = seen base
publish 0 = placed
choose = check 2
publish 0 = whole
begin 2 = check 1: same
check 2 1 = whole
begin 2 = commit 1: committed
begin 2 = check 2: same
check 2 2 = whole
begin 2 = commit 2: committed
begin 2 = end
counts = 2 0 0 2 0
# the least line that is done is checked before one that waits is taken, and a commit comes before both
journal 1,C1,2520260302    100000AOL1|AAP1|,
journal 2,C1,2520260302    100000AOL1|AAP2|,
journal 3,C1,2520260302    100000AOL1|AAP1|,

take 0 2 = taken 0
look 0 P2 = seen base
publish 0 = placed
choose = take 1
publish 0 = whole
choose = check 2
check 0 2 = same
choose = take 1
check 0 2 = whole
choose = take 1
begin 1 = take 1: taken 0
choose = take 3
look 1 P1 = seen base
publish 1 = placed
choose = check 2
publish 1 = whole
choose = check 1
begin 1 = check 1: same
choose = check 2
check 1 1 = whole
choose = commit 1
begin 2 = commit 1: committed
choose = check 2
begin 2 = check 2: same
choose = take 3
check 2 2 = whole
begin 0 = commit 2: committed
begin 0 = take 3: taken 0
choose = nothing
look 0 P1 = seen 1.0
publish 0 = placed
publish 0 = whole
begin 1 = check 3: same
check 1 3 = whole
begin 1 = commit 3: committed
choose = end
counts = 3 0 0 3 0
# a line that was sent back waits, and is chosen before those after it
journal 1,C1,2520260302    100000AOL1|AAP1|,
journal 2,C1,2520260302    100000AOL1|AAP1|,
journal 3,C1,2520260302    100000AOL1|AAP1|,

take 0 2 = taken 0
look 0 P1 = seen base
publish 0 = placed
publish 0 = whole
begin 0 = check 2: same
begin 1 = take 1: taken 0
look 1 P1 = seen base
publish 1 = placed
choose = take 3
check 0 2 = whole
begin 0 = check 2: changed P1 base 1.0
choose = take 2
begin 2 = take 2: taken 1
begin 0 = take 3: taken 0
look 0 P1 = suspect 2
choose = take 3
look 2 P1 = seen 1.0
publish 2 = placed
publish 1 = whole
choose = check 1
counts = 4 1 1 0 2
";
