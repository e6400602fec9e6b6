//! Lines over records that no moment ever had: the rules are total, and each says what counts as
//! what.

/// `put` puts a record over those of the base: a patron with a class, loans and fees, an item with
/// a media type, a borrower and a queue, or a fee with an amount and what is paid; `|` is none.
pub const ODD: &str = "
# an item of the list that isn't lent isn't renewed
put P1 patron A I1 |
journal 1,C1,6520260309    120000AOL1|AAP1|,

6610000000120260309    120000AOL1|BNI1|
# nor one that another has, and one that nobody knows
loans P2,I1,20260316,0
put P1 patron A I1+X9 |
journal 1,C1,6520260309    120000AOL1|AAP1|,

6610000000220260309    120000AOL1|BNI1|BNX9|
# a fee without a record counts as nothing
fees F2,P1,01,3.00,1.00
put P1 patron A | F1+F2
journal 1,C1,01N20260302    101500AOL1|AL|AAP1|,

24YY Y          00020260302    101500AOL1|AAP1|AEAnn|BLY|BHUSD|BV2.00|; P1 loans fees+F1+F2
# a fee whose paid is above its amount has the rest 0
fees F1,P1,01,1.00,0.00
fees F2,P1,01,3.00,1.00
put F1 fee 1.00 5.00
journal 1,C1,01N20260302    101500AOL1|AL|AAP1|,

24YY Y          00020260302    101500AOL1|AAP1|AEAnn|BLY|BHUSD|BV2.00|; P1 loans fees+F1+F2
# a checkin takes both places of an item that the list names twice
loans P1,I1,20260316,0
put P1 patron A I1+V1+I1 |
journal 1,C1,09N20260302    11000020260302    110000AOL1|ABI1|,

101YUN20260302    110000AOL1|ABI1|AQMain|AJOne|AAP1|CK001|; P1 loans+V1 fees; I1 - holds
# a checkin of a borrower whom nobody knows charges nobody
put I1 item 001 X9 |
journal 1,C1,09N20260302    11000020260302    110000AOL1|ABI1|,

101YUN20260302    110000AOL1|ABI1|AQMain|AJOne|AAX9|CK001|; I1 - holds
# a class that the policy lacks makes the patron unknown
put P1 patron Z | |
journal 1,C1,11NN20260302    101500                  AOL1|AAP1|ABI1|,

120NUN20260302    101500AOL1|AAP1|ABI1|AJOne|AH|CK001|
# a media type that the policy lacks makes the item unknown
put I1 item 010 | |
journal 1,C1,11NN20260302    101500                  AOL1|AAP1|ABI1|,

120NUN20260302    101500AOL1|AAP1|ABI1|AJ|AH|
# a record of another kind than its key's counts as none
put P1 fee 1.00 0.00
put I1 patron A | |
journal 1,C1,11NN20260302    101500                  AOL1|AAP1|ABI1|,

120NUN20260302    101500AOL1|AAP1|ABI1|AJ|AH|
# a name for a fee that the list has and that has no record counts as none
fees F2,P1,01,3.00,1.00
put P1 patron A | F1+F2
journal 1,C1,3720260302    1200000100USDBV1|AOL1|AAP1|CGF1|,

38Y20260302    120000AOL1|AAP1|; F2 200
# the first entry of a patron who waits twice is the one that leaves
put I1 item 001 | P1+P2+P1
journal 1,C1,15-20260302    101500AAP1|ABI1|,

161N20260302    101500AOL1|AAP1|ABI1|AJOne|; I1 - holds+P2:+P1:
# another pickup goes to the first entry of a patron who waits twice
put I1 item 001 | P2+P1+P1
journal 1,C1,15*20260302    101500AAP1|ABI1|BSEast|,

161N20260302    101500BR2|BSEast|AOL1|AAP1|ABI1|AJOne|; I1 - holds+P2:+P1:East+P1:
# a class that the policy lacks makes it a block of nobody
put P1 patron Z | F1
journal 1,C1,01N20260302    101500AOL1|AL|AAP1|,

24YY Y          00020260302    101500AOL1|AAP1|AE|BLN|
# and there is nobody to enable
put P1 patron Z | F1
journal 1,C1,2520260302    101500AOL1|AAP1|,

26YY Y          00020260302    101500AOL1|AAP1|AE|BLN|
# a borrower whose class the policy lacks is neither written nor charged
loans P1,I1,20260216,0
put P1 patron Z I1 |
journal 1,C1,09N20260302    11000020260302    110000AOL1|ABI1|,

101YUN20260302    110000AOL1|ABI1|AQMain|AJOne|AAP1|CK001|; I1 - holds
# an item whose media type the policy lacks isn't returned
put P1 patron A I1 |
put I1 item 010 P1 |
journal 1,C1,09N20260302    11000020260302    110000AOL1|ABI1|,

100NUN20260302    110000AOL1|ABI1|AQ|
# and its properties stay
put I1 item 010 | |
journal 1,C1,1920260302    101500AOL1|ABI1|CHtorn|,

20020260302    101500ABI1|
# a fee that the list names twice counts twice
fees F2,P1,01,3.00,1.00
put P1 patron A | F2+F2
journal 1,C1,01N20260302    101500AOL1|AL|AAP1|,

24YY Y          00020260302    101500AOL1|AAP1|AEAnn|BLY|BHUSD|BV4.00|; P1 loans fees+F2+F2
# a fee whose rest was 0 before stays in the list
put F1 fee 0.00 0.00
put F2 fee 1.00 0.00
put F3 fee 1.00 5.00
put P1 patron A | F1+F3+F2
journal 1,C1,3720260302    1200000100USDBV2|AOL1|AAP1|,

38Y20260302    120000AOL1|AAP1|; P1 loans fees+F1+F3; F2 100
# the loans are counted by the places of the list
put P1 patron A I1+I1 |
journal 1,C1,2520260302    101500AOL1|AAP1|,

26Y    Y        00020260302    101500AOL1|AAP1|AEAnn|BLY|; P1 loans+I1+I1 fees
# an item that the list names twice is renewed after its renewal
loans P1,I1,20260310,0
loans P2,V1,20260310,0
put P1 patron A I1+I1+V1 |
journal 1,C1,6520260309    120000AOL1|AAP1|,

6610001000220260309    120000AOL1|BMI1|BNI1|BNV1|; I1 P1 holds
";
