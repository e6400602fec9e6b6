//! Lines that run early on what lines before them change, and a day in its order.

/// A version that was made of the base is found changed, and so is what was made of it.
pub const STALE: &str = "
# a version that stood on the base is found changed, and so is what stood on it
journal 1,C1,2520260302    100000AOL1|AAP1|,
journal 2,C1,11NN20260302    101500                  AOL1|AAP1|ABI1|ACx|,
journal 3,C1,09N20260302    11000020260302    110000AOL1|ABI1|,

take 0 2 = taken 0
look 0 P1 = seen base
look 0 I1 = seen base
does 0 = 121NUY20260302    101500AOL1|AAP1|ABI1|AJOne|AH20260316    235900|CK001|; P1 loans+I1 fees; I1 P1 holds
publish 0 = placed
play on = output 0 0 0
publish 0 = placed
publish 0 = whole
clock = 2
take 0 3 = taken 0
look 0 I1 = seen 2.0
look 0 P1 = seen 2.0
does 0 = 101YUN20260302    110000AOL1|ABI1|AQMain|AJOne|AAP1|CK001|; P1 loans fees; I1 - holds
publish 0 = placed
publish 0 = placed
publish 0 = whole
clock = 4
check 0 3 = same
play on = output 0 0 0
check 0 3 = same
check 0 3 = whole
take 0 1 = taken 0
look 0 P1 = seen base
publish 0 = placed
publish 0 = whole
check 0 1 = same
check 0 1 = whole
commit 1 = committed
run 3 = unfinished 1
clock = 5
check 0 2 = changed P1 base 1.0
clock = 6
take 0 2 = taken 1
look 0 P1 = seen 1.0
look 0 I1 = seen base
does 0 = 121NUY20260302    101500AOL1|AAP1|ABI1|AJOne|AH20260316    235900|CK001|; P1 loans+I1 fees; I1 P1 holds
publish 0 = placed
publish 0 = placed
publish 0 = whole
clock = 8
check 0 2 = same
check 0 2 = same
check 0 2 = whole
commit 2 = committed
run 3 = unfinished 2
commit 3 = later
check 0 3 = changed I1 2.0 2.1
counts = 4 2 0 2 0
committed = 2
play on = output 0 0 0
take 0 3 = taken 1
look 0 I1 = seen 2.1
look 0 P1 = seen 2.1
publish 0 = placed
publish 0 = placed
publish 0 = whole
check 0 3 = same
check 0 3 = same
check 0 3 = whole
commit 3 = committed
choose = end
counts = 5 2 0 3 0
run 3 = output 0 1 1
play on = output 0 1 1
one thread = 
id,name,class,blocked
P1,Ann,A,N
P2,Bob,A,N
id,title,media,location,properties
I1,One,001,Main,
V1,Two,005,Main,
V2,Three,005,Main,
patron,item,due,renewals
id,patron,type,amount,paid
id,patron,type,amount
item,patron,pickup
line,connection,response
1,C1,26              00020260302    100000AOL1|AAP1|AEAnn|BLY|
2,C1,121NUY20260302    101500AOL1|AAP1|ABI1|AJOne|AH20260316    235900|CK001|
3,C1,101YUN20260302    110000AOL1|ABI1|AQMain|AJOne|AAP1|CK001|
line,connection,fields
1,C1,missing
2,C1,missing
3,C1,missing
line,connection,why

";

/// A line sees what another has placed in part.
pub const IN_PART: &str = "
# a line sees what another has placed in part, and is sent back when the rest comes
journal 1,C1,11NN20260302    101500                  AOL1|AAP1|ABI1|ACx|,
journal 2,C1,9900302.00AY1AZFCA5,
journal 3,C1,6520260309    120000AOL1|AAP1|,

take 0 1 = taken 0
look 0 P1 = seen base
look 0 I1 = seen base
publish 0 = placed
play on = output 0 0 0
take 1 3 = taken 0
look 1 P1 = seen 1.0
look 1 I1 = seen base
does 1 = 6610000000120260309    120000AOL1|BNI1|
publish 1 = whole
publish 0 = placed
publish 0 = whole
check 1 3 = same
check 1 3 = changed I1 base 1.0
play on = output 0 0 0
clock = 2
take 1 3 = taken 1
look 1 P1 = seen 1.0
look 1 I1 = seen 1.0
does 1 = 6610001000020260309    120000AOL1|BMI1|; I1 P1 holds
publish 1 = placed
publish 1 = whole
check 0 1 = same
check 0 1 = same
check 0 1 = whole
commit 1 = committed
run 3 = unfinished 1
take 0 2 = taken 0
publish 0 = whole
check 0 2 = whole
commit 2 = committed
run 3 = unfinished 2
check 1 3 = same
check 1 3 = same
check 1 3 = whole
commit 3 = committed
choose = end
counts = 4 1 0 3 0
run 3 = output 0 0 1
play on = output 0 0 1
one thread = 
id,name,class,blocked
P1,Ann,A,N
P2,Bob,A,N
id,title,media,location,properties
I1,One,001,Main,
V1,Two,005,Main,
V2,Three,005,Main,
patron,item,due,renewals
P1,I1,20260323,1
id,patron,type,amount,paid
id,patron,type,amount
item,patron,pickup
line,connection,response
1,C1,121NUY20260302    101500AOL1|AAP1|ABI1|AJOne|AH20260316    235900|CK001|
3,C1,6610001000020260309    120000AOL1|BMI1|
line,connection,fields
1,C1,missing
3,C1,missing
line,connection,why
2,C1,99

";

/// A suspect entry stops a look, and what an attempt leaves is lifted by the next.
pub const SUSPECT: &str = "
# a suspect entry stops a look, and what an attempt leaves is lifted by the next
loans P1,I1,20260316,0
journal 1,C1,29NN20260316    100000                  AOL1|AAP1|ABI1|,
journal 2,C1,09N20260320    09000020260320    090000APx|AOL1|ABI1|ACx|,
journal 3,C1,2520260320    100000AOL1|AAP1|,

take 0 2 = taken 0
look 0 I1 = seen base
look 0 P1 = seen base
does 0 = 101YUN20260320    090000AOL1|ABI1|AQMain|AJOne|AAP1|CK001|; P1 loans fees+R2-0; I1 - holds; R2-0 0
publish 0 = placed
publish 0 = placed
publish 0 = placed
publish 0 = whole
take 1 1 = taken 0
look 1 P1 = seen base
look 1 I1 = seen base
does 1 = 301YUY20260316    100000AOL1|AAP1|ABI1|AJOne|AH20260330    235900|CK001|; I1 P1 holds
publish 1 = placed
publish 1 = whole
check 0 2 = changed I1 base 1.0
clock = 5
take 1 3 = taken 0
look 1 P1 = suspect 2
play on = output 0 0 0
counts = 3 1 1 0 1
take 0 2 = taken 1
look 0 I1 = seen 1.0
look 0 P1 = seen base
does 0 = 101YUN20260320    090000AOL1|ABI1|AQMain|AJOne|AAP1|CK001|; P1 loans fees; I1 - holds
publish 0 = placed
publish 0 = placed
publish 0 = lifted
play on = output 0 0 0
publish 0 = whole
clock = 8
check 1 1 = same
check 1 1 = same
check 1 1 = whole
commit 1 = committed
run 3 = unfinished 1
check 0 2 = same
check 0 2 = same
check 0 2 = whole
commit 2 = committed
run 3 = unfinished 2
take 1 3 = taken 1
look 1 P1 = seen 2.1
publish 1 = placed
publish 1 = whole
check 1 3 = same
check 1 3 = whole
commit 3 = committed
counts = 5 1 1 3 0
run 3 = output 0 1 1
play on = output 0 1 1
one thread = 
id,name,class,blocked
P1,Ann,A,N
P2,Bob,A,N
id,title,media,location,properties
I1,One,001,Main,
V1,Two,005,Main,
V2,Three,005,Main,
patron,item,due,renewals
id,patron,type,amount,paid
id,patron,type,amount
item,patron,pickup
line,connection,response
1,C1,301YUY20260316    100000AOL1|AAP1|ABI1|AJOne|AH20260330    235900|CK001|
2,C1,101YUN20260320    090000AOL1|ABI1|AQMain|AJOne|AAP1|CK001|
3,C1,26              00020260320    100000AOL1|AAP1|AEAnn|BLY|
line,connection,fields
1,C1,missing
2,C1,missing
3,C1,missing
line,connection,why

";

/// Such lines at the greatest numbers of lines, and one that read a suspect entry.
pub const LATE: &str = "
# the same, at the greatest numbers of lines
journal 9999999990,C1,2520260302    100000AOL1|AAP1|,
journal 9999999991,C1,11NN20260302    101500                  AOL1|AAP1|ABI1|ACx|,
journal 9999999992,C1,09N20260302    11000020260302    110000AOL1|ABI1|,

take 0 2 = idle
take 0 9999999989 = idle
take 0 9999999993 = idle
take 0 9999999991 = taken 0
look 0 P1 = seen base
look 0 I1 = seen base
publish 0 = placed
publish 0 = placed
publish 0 = whole
clock = 2
take 0 9999999992 = taken 0
look 0 I1 = seen 9999999991.0
look 0 P1 = seen 9999999991.0
publish 0 = placed
publish 0 = placed
publish 0 = whole
clock = 4
check 0 9999999992 = same
check 0 9999999992 = same
check 0 9999999992 = whole
take 0 9999999990 = taken 0
look 0 P1 = seen base
publish 0 = placed
publish 0 = whole
check 0 9999999990 = same
check 0 9999999990 = whole
commit 9999999990 = committed
run 3 = unfinished 1
clock = 5
check 0 9999999991 = changed P1 base 9999999990.0
clock = 6
take 0 9999999991 = taken 1
look 0 P1 = seen 9999999990.0
look 0 I1 = seen base
publish 0 = placed
publish 0 = placed
publish 0 = whole
clock = 8
check 0 9999999991 = same
check 0 9999999991 = same
check 0 9999999991 = whole
commit 9999999991 = committed
run 3 = unfinished 2
commit 9999999992 = later
check 0 9999999992 = changed I1 9999999991.0 9999999991.1
counts = 4 2 0 2 0
committed = 2
run 3 = unfinished 2
# the same, at the greatest numbers of lines
loans P1,I1,20260316,0
journal 9999999990,C1,29NN20260316    100000                  AOL1|AAP1|ABI1|,
journal 9999999991,C1,09N20260320    09000020260320    090000APx|AOL1|ABI1|ACx|,
journal 9999999992,C1,2520260320    100000AOL1|AAP1|,

take 0 9999999991 = taken 0
look 0 I1 = seen base
look 0 P1 = seen base
does 0 = 101YUN20260320    090000AOL1|ABI1|AQMain|AJOne|AAP1|CK001|; P1 loans fees+R9999999991-0; I1 - holds; R9999999991-0 0
publish 0 = placed
publish 0 = placed
publish 0 = placed
publish 0 = whole
take 1 9999999990 = taken 0
look 1 P1 = seen base
look 1 I1 = seen base
publish 1 = placed
publish 1 = whole
check 0 9999999991 = changed I1 base 9999999990.0
clock = 5
take 1 9999999992 = taken 0
look 1 P1 = suspect 9999999991
counts = 3 1 1 0 1
take 0 9999999991 = taken 1
look 0 I1 = seen 9999999990.0
look 0 P1 = seen base
publish 0 = placed
publish 0 = placed
publish 0 = lifted
publish 0 = whole
clock = 8
check 1 9999999990 = same
check 1 9999999990 = same
check 1 9999999990 = whole
commit 9999999990 = committed
run 3 = unfinished 1
check 0 9999999991 = same
check 0 9999999991 = same
check 0 9999999991 = whole
commit 9999999991 = committed
run 3 = unfinished 2
take 1 9999999992 = taken 1
look 1 P1 = seen 9999999991.1
publish 1 = placed
publish 1 = whole
check 1 9999999992 = same
check 1 9999999992 = whole
commit 9999999992 = committed
choose = end
counts = 5 1 1 3 0
run 3 = output 0 1 1
play on = output 0 1 1
# a line that stood on a suspect entry is found changed, and stops where it looks at it again
journal 1,C1,2520260302    100000AOL1|AAP1|,
journal 2,C1,11NN20260302    101500                  AOL1|AAP1|ABI1|ACx|,
journal 3,C1,09N20260302    11000020260302    110000AOL1|ABI1|,

take 0 2 = taken 0
look 0 P1 = seen base
look 0 I1 = seen base
publish 0 = placed
publish 0 = placed
publish 0 = whole
take 0 3 = taken 0
look 0 I1 = seen 2.0
look 0 P1 = seen 2.0
publish 0 = placed
publish 0 = placed
publish 0 = whole
take 0 1 = taken 0
look 0 P1 = seen base
publish 0 = placed
publish 0 = whole
check 0 1 = same
check 0 1 = whole
commit 1 = committed
run 3 = unfinished 1
commit 2 = later
check 0 2 = changed P1 base 1.0
check 0 3 = changed I1 2.0 suspect 2
take 0 3 = taken 1
look 0 I1 = suspect 2
counts = 4 2 1 1 0
take 0 2 = taken 1
look 0 P1 = seen 1.0
look 0 I1 = seen base
publish 0 = placed
publish 0 = placed
publish 0 = whole
check 0 2 = same
check 0 2 = same
check 0 2 = whole
commit 2 = committed
run 3 = unfinished 2
take 0 3 = taken 2
look 0 I1 = seen 2.1
look 0 P1 = seen 2.1
does 0 = 101YUN20260302    110000AOL1|ABI1|AQMain|AJOne|AAP1|CK001|; P1 loans fees; I1 - holds
publish 0 = placed
publish 0 = placed
publish 0 = whole
check 0 3 = same
check 0 3 = same
check 0 3 = whole
commit 3 = committed
counts = 6 2 1 3 0
run 3 = output 0 1 2
";

/// Lines that are answered otherwise the second time.
pub const EARLY: &str = "
# a checkin that ran before a line changed the item's properties tells them the second time
loans P1,I1,20260316,0
journal 1,C1,1920260302    101500AOL1|ABI1|ACx|CHtorn|,
journal 2,C1,09N20260302    11000020260302    110000AOL1|ABI1|,

take 1 2 = taken 0
look 1 I1 = seen base
look 1 P1 = seen base
does 1 = 101YUN20260302    110000AOL1|ABI1|AQMain|AJOne|AAP1|CK001|; P1 loans fees; I1 - holds
publish 1 = placed
publish 1 = placed
publish 1 = whole
take 0 1 = taken 0
look 0 I1 = seen base
publish 0 = placed
publish 0 = whole
check 0 1 = same
check 0 1 = whole
commit 1 = committed
run 3 = unfinished 1
commit 2 = later
committed = 1
check 1 2 = changed I1 base 1.0
take 1 2 = taken 1
look 1 I1 = seen 1.0
look 1 P1 = seen base
does 1 = 101YUN20260302    110000AOL1|ABI1|AQMain|AJOne|AAP1|CK001|CHtorn|; P1 loans fees; I1 - holds
publish 1 = placed
publish 1 = placed
publish 1 = whole
check 1 2 = same
check 1 2 = same
check 1 2 = whole
commit 2 = committed
choose = end
counts = 3 1 0 2 0
run 3 = output 0 1
one thread = 
id,name,class,blocked
P1,Ann,A,N
P2,Bob,A,N
id,title,media,location,properties
I1,One,001,Main,torn
V1,Two,005,Main,
V2,Three,005,Main,
patron,item,due,renewals
id,patron,type,amount,paid
id,patron,type,amount
item,patron,pickup
line,connection,response
1,C1,20120260302    101500ABI1|AJOne|CHtorn|
2,C1,101YUN20260302    110000AOL1|ABI1|AQMain|AJOne|AAP1|CK001|CHtorn|
line,connection,fields
1,C1,missing
2,C1,missing
line,connection,why

# a checkout that ran before another patron's hold is refused the second time, and what it wrote is lifted
journal 1,C1,15+20260302    101500AOL1|AAP2|ABI1|BSMain|,
journal 2,C1,11NN20260302    101500                  AOL1|AAP1|ABI1|ACx|,

take 0 2 = taken 0
look 0 P1 = seen base
look 0 I1 = seen base
publish 0 = placed
publish 0 = placed
publish 0 = whole
take 1 1 = taken 0
look 1 P2 = seen base
look 1 I1 = seen base
does 1 = 161Y20260302    101500BR1|BSMain|AOL1|AAP2|ABI1|AJOne|; I1 - holds+P2:Main
publish 1 = placed
publish 1 = whole
check 0 2 = same
check 0 2 = changed I1 base 1.0
take 0 2 = taken 1
look 0 P1 = seen base
look 0 I1 = seen 1.0
does 0 = 120NUN20260302    101500AOL1|AAP1|ABI1|AJOne|AH|CK001|
publish 0 = lifted
publish 0 = lifted
publish 0 = whole
check 1 1 = same
check 1 1 = same
check 1 1 = whole
commit 1 = committed
run 3 = unfinished 1
check 0 2 = same
check 0 2 = same
check 0 2 = whole
commit 2 = committed
choose = end
counts = 3 1 0 2 0
run 3 = output 0 1
";

/// Six requests, line by line in their order: what `drive_in_order` does.
pub const IN_ORDER: &str = "
# a day in its order
journal 1,C1,1920260302    101500AOL1|ABI1|ACx|CHtorn|,
journal 2,C1,11NN20260302    101500                  AOL1|AAP1|ABI1|ACx|,
journal 3,C1,11NN20260301    101500                  AOL1|AAP1|ABV1|BOY|,
journal 4,C1,09N20260320    09000020260320    090000APx|AOL1|ABI1|ACx|,
journal 5,C1,01N20260302    101500AOL1|ALlost|AAP1|ACx|,
journal 6,C1,2520260302    101500AOL1|AAP1|,

take 0 1 = taken 0
look 0 I1 = seen base
publish 0 = placed
publish 0 = whole
check 0 1 = same
check 0 1 = whole
commit 1 = committed
run 3 = unfinished 1
take 0 2 = taken 0
look 0 P1 = seen base
look 0 I1 = seen 1.0
publish 0 = placed
publish 0 = placed
publish 0 = whole
check 0 2 = same
check 0 2 = same
check 0 2 = whole
commit 2 = committed
run 3 = unfinished 2
take 0 3 = taken 0
look 0 P1 = seen 2.0
look 0 V1 = seen base
publish 0 = placed
publish 0 = placed
publish 0 = placed
publish 0 = whole
check 0 3 = same
check 0 3 = same
check 0 3 = whole
commit 3 = committed
run 3 = unfinished 3
take 0 4 = taken 0
look 0 I1 = seen 2.0
look 0 P1 = seen 3.0
publish 0 = placed
publish 0 = placed
publish 0 = placed
publish 0 = whole
check 0 4 = same
check 0 4 = same
check 0 4 = whole
commit 4 = committed
run 3 = unfinished 4
take 0 5 = taken 0
look 0 P1 = seen 4.0
look 0 R3-0 = seen 3.0
look 0 R4-0 = seen 4.0
publish 0 = placed
publish 0 = whole
check 0 5 = same
check 0 5 = same
check 0 5 = same
check 0 5 = whole
commit 5 = committed
run 3 = unfinished 5
take 0 6 = taken 0
look 0 P1 = seen 5.0
look 0 R3-0 = seen 3.0
look 0 R4-0 = seen 4.0
publish 0 = placed
publish 0 = whole
check 0 6 = same
check 0 6 = same
check 0 6 = same
check 0 6 = whole
commit 6 = committed
choose = end
counts = 6 0 0 6 0
clock = 11
run 3 = output 0 0 0 0 0 0
one thread = 
id,name,class,blocked
P1,Ann,A,N
P2,Bob,A,N
id,title,media,location,properties
I1,One,001,Main,torn
V1,Two,005,Main,
V2,Three,005,Main,
patron,item,due,renewals
P1,V1,20260309,0
id,patron,type,amount,paid
R3-0,P1,06,1.00,0.00
R4-0,P1,04,1.00,0.00
id,patron,type,amount
item,patron,pickup
line,connection,response
1,C1,20120260302    101500ABI1|AJOne|CHtorn|
2,C1,121NUY20260302    101500AOL1|AAP1|ABI1|AJOne|AH20260316    235900|CK001|CHtorn|
3,C1,121NUY20260301    101500AOL1|AAP1|ABV1|AJTwo|AH20260309    235900|BT06|BHUSD|BV1.00|CK005|
4,C1,101YUN20260320    090000AOL1|ABI1|AQMain|AJOne|AAP1|CK001|CHtorn|
5,C1,24YY Y          00020260302    101500AOL1|AAP1|AEAnn|BLY|BHUSD|BV2.00|
6,C1,26              00020260302    101500AOL1|AAP1|AEAnn|BLY|
line,connection,fields
1,C1,missing
2,C1,missing
3,C1,missing
4,C1,missing
5,C1,missing
6,C1,missing
line,connection,why

";
