//! A line needs no record that its rule doesn't ask for.

/// What a line doesn't look at may change: the line isn't sent back.
pub const SPARED: &str = "
# a checkout of a patron who has a loan looks at the patron and the item alone
loans P1,V1,20260309,0
journal 1,C1,1920260302    101500AOL1|ABV1|ACx|CHtorn|,
journal 2,C1,11NN20260302    101500                  AOL1|AAP1|ABI1|ACx|,

take 0 2 = taken 0
look 0 P1 = seen base
look 0 I1 = seen base
does 0 = 121NUY20260302    101500AOL1|AAP1|ABI1|AJOne|AH20260316    235900|CK001|; P1 loans+V1+I1 fees; I1 P1 holds
publish 0 = placed
publish 0 = placed
publish 0 = whole
clock = 2
take 1 1 = taken 0
look 1 V1 = seen base
publish 1 = placed
publish 1 = whole
clock = 3
check 1 1 = same
check 1 1 = whole
commit 1 = committed
run 3 = unfinished 1
check 0 2 = same
check 0 2 = same
check 0 2 = whole
commit 2 = committed
choose = end
counts = 2 0 0 2 0
clock = 3
run 3 = output 0 0
# a checkin of a borrower who owes a fee and has another loan looks at the item and the borrower alone
loans P1,V1,20260309,0
loans P1,I1,20260316,0
fees F1,P1,01,1.00,0.00
journal 1,C1,3720260302    1200000100USDBV0.5|AOL1|AAP1|,
journal 2,C1,1920260302    101500AOL1|ABV1|ACx|CHtorn|,
journal 3,C1,09N20260302    11000020260302    110000AOL1|ABI1|,

take 0 3 = taken 0
look 0 I1 = seen base
look 0 P1 = seen base
does 0 = 101YUN20260302    110000AOL1|ABI1|AQMain|AJOne|AAP1|CK001|; P1 loans+V1 fees+F1; I1 - holds
publish 0 = placed
publish 0 = placed
publish 0 = whole
take 1 2 = taken 0
look 1 V1 = seen base
publish 1 = placed
publish 1 = whole
take 1 1 = taken 0
look 1 P1 = seen base
look 1 F1 = seen base
publish 1 = placed
publish 1 = whole
clock = 4
check 1 1 = same
check 1 1 = same
check 1 1 = whole
commit 1 = committed
run 3 = unfinished 1
check 1 2 = same
check 1 2 = whole
commit 2 = committed
run 3 = unfinished 2
check 0 3 = same
check 0 3 = same
check 0 3 = whole
commit 3 = committed
choose = end
counts = 3 0 0 3 0
run 3 = output 0 0 0
# a renewal of all looks at each item of the list, and a change of one of them sends it back
loans P1,V1,20260309,0
loans P1,I1,20260310,0
journal 1,C1,29NN20260309    110000                  AOL1|AAP1|ABV1|BOY|,
journal 2,C1,6520260309    120000AOL1|AAP1|,

take 0 2 = taken 0
look 0 P1 = seen base
look 0 V1 = seen base
look 0 I1 = seen base
does 0 = 6610001000120260309    120000AOL1|BMI1|BNV1|; I1 P1 holds
publish 0 = placed
publish 0 = whole
take 1 1 = taken 0
look 1 P1 = seen base
look 1 V1 = seen base
publish 1 = placed
publish 1 = placed
publish 1 = placed
publish 1 = whole
check 0 2 = changed P1 base 1.0
counts = 2 1 0 0 1
run 3 = unfinished 0
";

/// What lines of each kind need, record by record; what they do on what they have noted.
pub const NEEDED: &str = "
# on one base, each line needs these records, in this order, and no others
items I2,Two,001,Main,
items I3,Three,001,Main,
loans P1,I1,20260316,0
loans P2,I3,20260316,1
fees F1,P1,01,1.00,0.00
fees F2,P1,01,2.00,0.00
journal 1,C1,1920260302    101500AOL1|ABI1|,
journal 2,C1,01N20260302    101500AOL1|AAP1|,
journal 3,C1,2520260302    101500AOL1|AAP2|,
journal 4,C1,09N20260320    09000020260320    090000APx|AOL1|ABI1|,
journal 5,C1,09N20260320    09000020260320    090000APx|AOL1|ABI2|,
journal 6,C1,09N20260320    09000020260320    090000APx|AOL1|ABI9|,
journal 7,C1,11NN20260302    101500                  AOL1|AAP1|ABI2|,
journal 8,C1,11NN20260302    101500                  AOL1|AAP2|ABI2|,
journal 9,C1,11NN20260302    101500                  AOL1|AAX9|ABI2|,
journal 10,C1,11NN20260302    101500                  AOL1|AAP2|ABI1|,
journal 11,C1,11NY20260302    101500                  AOL1|AAP2|ABI1|,
journal 12,C1,11YN20260302    101500                  AOL1|AAP1|ABI1|,
journal 13,C1,29NN20260302    101500                  AOL1|AAP1|ABI1|,
journal 14,C1,29NN20260302    101500                  AOL1|AAP2|ABI1|,
journal 15,C1,29NN20260302    101500                  AOL1|AAP2|ABI3|,
journal 16,C1,6520260309    120000AOL1|AAP1|,
journal 17,C1,6520260309    120000AOL1|AAP2|,
journal 18,C1,3720260302    1200000100USDBV0.5|AOL1|AAP1|,
journal 19,C1,3720260302    1200000100USDBV1.5|AOL1|AAP1|,
journal 20,C1,3720260302    1200000100USDBV1.5|AOL1|AAP1|CGF2|,
journal 21,C1,3720260302    1200000100USDBV1.5|AOL1|AAP1|CGF9|,
journal 22,C1,3720260302    1200000100EURBV1.5|AOL1|AAP1|,
journal 23,C1,15+20260302    101500AOL1|AAP2|ABI1|BSMain|,
journal 24,C1,9900302.00,
journal 25,C1,9900302.00AY1AZFCA6,

take 0 1 = taken 0
does 0 = needs I1
look 0 I1 = seen base
does 0 = 20120260302    101500ABI1|AJOne|
take 1 2 = taken 0
does 1 = needs P1
look 1 P1 = seen base
does 1 = needs F1
look 1 F1 = seen base
does 1 = needs F2
look 1 F2 = seen base
does 1 = 24YY Y          00020260302    101500AOL1|AAP1|AEAnn|BLY|BHUSD|BV3.00|; P1 loans+I1 fees+F1+F2
take 2 3 = taken 0
does 2 = needs P2
look 2 P2 = seen base
does 2 = 26              00020260302    101500AOL1|AAP2|AEBob|BLY|; P2 loans+I3 fees
take 3 4 = taken 0
does 3 = needs I1
look 3 I1 = seen base
does 3 = needs P1
look 3 P1 = seen base
does 3 = 101YUN20260320    090000AOL1|ABI1|AQMain|AJOne|AAP1|CK001|; P1 loans fees+F1+F2+R4-0; I1 - holds; R4-0 0
take 4 5 = taken 0
does 4 = needs I2
look 4 I2 = seen base
does 4 = 101YUN20260320    090000AOL1|ABI2|AQMain|AJTwo|CK001|
take 5 6 = taken 0
does 5 = needs I9
look 5 I9 = seen base
does 5 = 100NUN20260320    090000AOL1|ABI9|AQ|
take 6 7 = taken 0
does 6 = needs P1
look 6 P1 = seen base
does 6 = needs I2
look 6 I2 = seen base
does 6 = needs F1
look 6 F1 = seen base
does 6 = needs F2
look 6 F2 = seen base
does 6 = 121NUY20260302    101500AOL1|AAP1|ABI2|AJTwo|AH20260316    235900|CK001|; P1 loans+I1+I2 fees+F1+F2; I2 P1 holds
take 7 8 = taken 0
does 7 = needs P2
look 7 P2 = seen base
does 7 = needs I2
look 7 I2 = seen base
does 7 = 121NUY20260302    101500AOL1|AAP2|ABI2|AJTwo|AH20260316    235900|CK001|; P2 loans+I3+I2 fees; I2 P2 holds
take 8 9 = taken 0
does 8 = needs X9
look 8 X9 = seen base
does 8 = needs I2
look 8 I2 = seen base
does 8 = 120NUN20260302    101500AOL1|AAX9|ABI2|AJTwo|AH|CK001|
take 9 10 = taken 0
does 9 = needs P2
look 9 P2 = seen base
does 9 = needs I1
look 9 I1 = seen base
does 9 = 120NUN20260302    101500AOL1|AAP2|ABI1|AJOne|AH|CK001|
take 10 11 = taken 0
does 10 = needs P2
look 10 P2 = seen base
does 10 = needs I1
look 10 I1 = seen base
does 10 = needs P1
look 10 P1 = seen base
does 10 = 121NUY20260302    101500AOL1|AAP2|ABI1|AJOne|AH20260316    235900|CK001|; P1 loans fees+F1+F2; P2 loans+I3+I1 fees; I1 P2 holds
take 11 12 = taken 0
does 11 = needs P1
look 11 P1 = seen base
does 11 = needs I1
look 11 I1 = seen base
does 11 = needs F1
look 11 F1 = seen base
does 11 = needs F2
look 11 F2 = seen base
does 11 = 121YUY20260302    101500AOL1|AAP1|ABI1|AJOne|AH20260316    235900|CK001|; I1 P1 holds
take 12 13 = taken 0
does 12 = needs P1
look 12 P1 = seen base
does 12 = needs I1
look 12 I1 = seen base
does 12 = needs F1
look 12 F1 = seen base
does 12 = needs F2
look 12 F2 = seen base
does 12 = 301YUY20260302    101500AOL1|AAP1|ABI1|AJOne|AH20260316    235900|CK001|; I1 P1 holds
take 13 14 = taken 0
does 13 = needs P2
look 13 P2 = seen base
does 13 = needs I1
look 13 I1 = seen base
does 13 = 300NUN20260302    101500AOL1|AAP2|ABI1|AJOne|AH|CK001|
take 14 15 = taken 0
does 14 = needs P2
look 14 P2 = seen base
does 14 = needs I3
look 14 I3 = seen base
does 14 = 300NUN20260302    101500AOL1|AAP2|ABI3|AJThree|AH|CK001|
take 15 16 = taken 0
does 15 = needs P1
look 15 P1 = seen base
does 15 = needs I1
look 15 I1 = seen base
does 15 = needs F1
look 15 F1 = seen base
does 15 = needs F2
look 15 F2 = seen base
does 15 = 6610001000020260309    120000AOL1|BMI1|; I1 P1 holds
take 16 17 = taken 0
does 16 = needs P2
look 16 P2 = seen base
does 16 = needs I3
look 16 I3 = seen base
does 16 = 6610000000120260309    120000AOL1|BNI3|
take 17 18 = taken 0
does 17 = needs P1
look 17 P1 = seen base
does 17 = needs F1
look 17 F1 = seen base
does 17 = 38Y20260302    120000AOL1|AAP1|; F1 50
take 18 19 = taken 0
does 18 = needs P1
look 18 P1 = seen base
does 18 = needs F1
look 18 F1 = seen base
does 18 = needs F2
look 18 F2 = seen base
does 18 = 38Y20260302    120000AOL1|AAP1|; P1 loans+I1 fees+F2; F1 100; F2 50
take 19 20 = taken 0
does 19 = needs P1
look 19 P1 = seen base
does 19 = needs F2
look 19 F2 = seen base
does 19 = 38Y20260302    120000AOL1|AAP1|; F2 150
take 20 21 = taken 0
does 20 = needs P1
look 20 P1 = seen base
does 20 = needs F1
look 20 F1 = seen base
does 20 = needs F2
look 20 F2 = seen base
does 20 = 38Y20260302    120000AOL1|AAP1|; P1 loans+I1 fees+F2; F1 100; F2 50
take 21 22 = taken 0
does 21 = needs P1
look 21 P1 = seen base
does 21 = 38N20260302    120000AOL1|AAP1|
take 22 23 = taken 0
does 22 = needs P2
look 22 P2 = seen base
does 22 = needs I1
look 22 I1 = seen base
does 22 = 161N20260302    101500BR1|BSMain|AOL1|AAP2|ABI1|AJOne|; I1 P1 holds+P2:Main
take 23 24 = taken 0
does 23 = 
take 24 25 = taken 0
does 24 = 96AZFEF6
# what is refused before, forced or a hold needs no fee; another's renewal needs none of the borrower's; a renewal of all needs the fees once
patrons P3,Cyd,A,Y
items I2,Two,001,Main,
loans P1,I1,20260316,0
loans P1,V1,20260310,0
loans P2,I2,20260310,1
fees F1,P1,01,5.00,0.00
fees F2,P1,01,1.00,0.00
fees F4,P2,01,2.00,0.00
fees F3,P2,01,1.00,0.00
fees F5,P3,01,1.00,0.00
journal 1,C1,11NN20260302    101500                  AOL1|AAP3|ABV2|BOY|,
journal 2,C1,29YN20260316    100000                  AOL1|AAP2|ABI1|,
journal 3,C1,6520260309    120000AOL1|AAP1|BOY|,
journal 4,C1,11NY20260302    101500                  AOL1|AAP3|ABI1|,
journal 5,C1,29NN20260316    100000                  AOL1|AAP1|ABI1|,
journal 6,C1,15+20260302    101500AOL1|AAP1|ABV2|BSMain|,
journal 7,C1,6520260309    120000AOL1|AAP2|,
journal 8,C1,6520260309    120000AOL1|AAX9|,

take 0 1 = taken 0
does 0 = needs P3
look 0 P3 = seen base
does 0 = needs V2
look 0 V2 = seen base
does 0 = 120NUN20260302    101500AOL1|AAP3|ABV2|AJThree|AH|CK005|
take 1 2 = taken 0
does 1 = needs P2
look 1 P2 = seen base
does 1 = needs I1
look 1 I1 = seen base
does 1 = needs F4
look 1 F4 = seen base
does 1 = needs F3
look 1 F3 = seen base
does 1 = 301YUY20260316    100000AOL1|AAP2|ABI1|AJOne|AH20260330    235900|CK001|; I1 P1 holds
take 2 3 = taken 0
does 2 = needs P1
look 2 P1 = seen base
does 2 = needs I1
look 2 I1 = seen base
does 2 = needs F1
look 2 F1 = seen base
does 2 = needs F2
look 2 F2 = seen base
does 2 = needs V1
look 2 V1 = seen base
does 2 = 6610002000020260309    120000AOL1|BMI1|BMV1|; P1 loans+I1+V1 fees+F1+F2+R3-0; I1 P1 holds; V1 P1 holds; R3-0 0
take 3 4 = taken 0
does 3 = needs P3
look 3 P3 = seen base
does 3 = needs I1
look 3 I1 = seen base
does 3 = needs P1
look 3 P1 = seen base
does 3 = 121NUY20260302    101500AOL1|AAP3|ABI1|AJOne|AH20260316    235900|CK001|; P1 loans+V1 fees+F1+F2; P3 loans+I1 fees+F5; I1 P3 holds
take 4 5 = taken 0
does 4 = needs P1
look 4 P1 = seen base
does 4 = needs I1
look 4 I1 = seen base
does 4 = needs F1
look 4 F1 = seen base
does 4 = needs F2
look 4 F2 = seen base
does 4 = 301YUY20260316    100000AOL1|AAP1|ABI1|AJOne|AH20260330    235900|CK001|; I1 P1 holds
take 5 6 = taken 0
does 5 = needs P1
look 5 P1 = seen base
does 5 = needs V2
look 5 V2 = seen base
does 5 = 161Y20260302    101500BR1|BSMain|AOL1|AAP1|ABV2|AJThree|; V2 - holds+P1:Main
take 6 7 = taken 0
does 6 = needs P2
look 6 P2 = seen base
does 6 = needs I2
look 6 I2 = seen base
does 6 = 6610000000120260309    120000AOL1|BNI2|
take 7 8 = taken 0
does 7 = needs X9
look 7 X9 = seen base
does 7 = 6600000000020260309    120000AOL1|
";
