//! Runs by lists of steps that are strange, and over journals that are.

/// Runs by lists of steps that are strange, and over journals that are.
pub const LISTS: &str = "
# lists of steps for one worker: none, one twice, all
journal 1,C1,1920260302    101500AOL1|ABI1|ACx|CHtorn|,

run 0 = workers must be 1 to 64
run 65 = workers must be 1 to 64
run 1 = unfinished 0
run 64 = unfinished 0
take 0 1 = taken 0
take 0 1 = idle
take 1 1 = idle
take 0 0 = idle
take 0 7 = idle
look 0 I1 = seen base
commit 1 = later
publish 0 = placed
publish 0 = whole
publish 0 = no version
run 1 = unfinished 0
check 0 1 = same
commit 1 = later
check 0 1 = whole
run 1 = unfinished 0
commit 1 = committed
commit 1 = idle
check 0 1 = idle
run 1 = output 0
one thread = 
id,name,class,blocked
P1,Ann,A,N
P2,Bob,A,N
id,title,media,location,properties
I1,One,001,Main,torn
V1,Two,005,Main,
V2,Three,005,Main,
patron,item,due,renewals
id,patron,type,amount,paid
id,patron,type,amount
item,patron,pickup
line,connection,response
1,C1,20120260302    101500ABI1|AJOne|CHtorn|
line,connection,fields
1,C1,missing
line,connection,why

# the last of 64 workers, and one more
journal 1,C1,1920260302    101500AOL1|ABI1|ACx|CHtorn|,20120260302    101500ABI1|AJOne|
journal 2,C1,9900302.00AY1AZFCA5,

take 64 1 = idle
publish 64 = no version
take 63 1 = taken 0
look 63 I1 = seen base
take 63 2 = idle
check 64 1 = idle
commit 64 = idle
commit 0 = idle
run 64 = unfinished 0
publish 63 = placed
publish 63 = whole
check 62 1 = same
check 62 1 = whole
commit 1 = committed
take 63 2 = taken 0
publish 63 = whole
check 1 2 = whole
commit 2 = committed
run 63 = unfinished 0
run 64 = output 0 0
one thread = 
id,name,class,blocked
P1,Ann,A,N
P2,Bob,A,N
id,title,media,location,properties
I1,One,001,Main,torn
V1,Two,005,Main,
V2,Three,005,Main,
patron,item,due,renewals
id,patron,type,amount,paid
id,patron,type,amount
item,patron,pickup
line,connection,response
1,C1,20120260302    101500ABI1|AJOne|CHtorn|
line,connection,fields
line,connection,why
2,C1,99

# no line

choose = end
take 0 1 = idle
commit 1 = idle
run 1 = output
play on = output
one thread = 
id,name,class,blocked
P1,Ann,A,N
P2,Bob,A,N
id,title,media,location,properties
I1,One,001,Main,
V1,Two,005,Main,
V2,Three,005,Main,
patron,item,due,renewals
id,patron,type,amount,paid
id,patron,type,amount
item,patron,pickup
line,connection,response
line,connection,fields
line,connection,why

# a tape and an item brought late, at the greatest numbers of lines, and a line without an answer
loans P1,I1,20260316,0
journal 9999999997,C1,11NN20260301    101500                  AOL1|AAP1|ABV1|BOY|,
journal 9999999998,C1,88,
journal 9999999999,C1,09N20260320    09000020260320    090000APx|AOL1|ABI1|ACx|,

take 0 9999999999 = taken 0
play on = output 0 0 0
one thread = 
id,name,class,blocked
P1,Ann,A,N
P2,Bob,A,N
id,title,media,location,properties
I1,One,001,Main,
V1,Two,005,Main,
V2,Three,005,Main,
patron,item,due,renewals
P1,V1,20260309,0
id,patron,type,amount,paid
R9999999997-0,P1,06,1.00,0.00
R9999999999-0,P1,04,1.00,0.00
id,patron,type,amount
item,patron,pickup
line,connection,response
9999999997,C1,121NUY20260301    101500AOL1|AAP1|ABV1|AJTwo|AH20260309    235900|BT06|BHUSD|BV1.00|CK005|
9999999999,C1,101YUN20260320    090000AOL1|ABI1|AQMain|AJOne|AAP1|CK001|
line,connection,fields
9999999997,C1,missing
9999999999,C1,missing
line,connection,why
9999999998,C1,unknown_kind

";
