//! What messages, fields and words are called (3M's SIP 2.00), as lists: in each line a code, `=`, and what stands for it.

use crate::parts::{cut, split};

/// For each message: its name, `;`, and its fixed fields, each with a picture of its length.
pub const KINDS: &str = "\
01=block patron;card retained:Y,date:YYYYMMDDZZZZHHMMSS
09=checkin;no block:Y,date:YYYYMMDDZZZZHHMMSS,return date:YYYYMMDDZZZZHHMMSS
11=checkout;renewal policy:Y,no block:Y,date:YYYYMMDDZZZZHHMMSS,no block due date:YYYYMMDDZZZZHHMMSS
15=hold;hold mode:+,date:YYYYMMDDZZZZHHMMSS
19=item status update;date:YYYYMMDDZZZZHHMMSS
25=patron enable;date:YYYYMMDDZZZZHHMMSS
29=renew;third party allowed:Y,no block:Y,date:YYYYMMDDZZZZHHMMSS,no block due date:YYYYMMDDZZZZHHMMSS
37=fee paid;date:YYYYMMDDZZZZHHMMSS,fee type:01,payment type:00,currency:USD
65=renew all;date:YYYYMMDDZZZZHHMMSS
17=item information;date:YYYYMMDDZZZZHHMMSS
23=patron status;language:000,date:YYYYMMDDZZZZHHMMSS
35=end patron session;date:YYYYMMDDZZZZHHMMSS
63=patron information;language:000,date:YYYYMMDDZZZZHHMMSS,summary:YYYYYYYYYY
93=login;user algorithm:0,password algorithm:0
97=resend
99=status of a machine;status code:0,print width:000,version:2.00
10=checkin response;ok:1,resensitize:Y,magnetic media:Y,alert:Y,date:YYYYMMDDZZZZHHMMSS
12=checkout response;ok:1,renewal ok:Y,magnetic media:Y,desensitize:Y,date:YYYYMMDDZZZZHHMMSS
16=hold response;ok:1,available:Y,date:YYYYMMDDZZZZHHMMSS
20=item status update response;ok:1,date:YYYYMMDDZZZZHHMMSS
24=patron status response;status:YYYYYYYYYYYYYY,language:000,date:YYYYMMDDZZZZHHMMSS
26=patron enable response;status:YYYYYYYYYYYYYY,language:000,date:YYYYMMDDZZZZHHMMSS
30=renew response;ok:1,renewal ok:Y,magnetic media:Y,desensitize:Y,date:YYYYMMDDZZZZHHMMSS
38=fee paid response;accepted:Y,date:YYYYMMDDZZZZHHMMSS
66=renew all response;ok:1,renewed:0000,unrenewed:0000,date:YYYYMMDDZZZZHHMMSS
18=item information response;circulation:01,security:00,fee type:01,date:YYYYMMDDZZZZHHMMSS
36=end session response;ended:Y,date:YYYYMMDDZZZZHHMMSS
64=patron information response;status:YYYYYYYYYYYYYY,language:000,date:YYYYMMDDZZZZHHMMSS,counts:000000000000000000000000
94=login response;ok:1
96=please send again
98=status of the server;services:YYYYYY,timeout:000,retries:000,date:YYYYMMDDZZZZHHMMSS,version:2.00
";

/// The variable fields by their identifiers.
pub const FIELDS: &str = "\
AA=patron
AB=item
AC=terminal password
AD=patron password
AE=name
AF=screen message
AG=print line
AH=due date
AJ=title
AO=institution
AP=location now
AQ=location
AY=sequence number and checksum
AZ=checksum
BG=owner
BH=currency
BI=cancel
BK=transaction
BL=valid patron
BM=renewed item
BN=item not renewed
BO=fee acknowledged
BR=place in the queue
BS=pickup place
BT=fee type
BV=amount
BW=expires
BY=hold type
CG=fee
CH=item properties
CI=security inhibit
CK=media type
CO=login password
CQ=password is right
";

/// The fields whose values aren't shown, with what is.
pub const SECRETS: &str = "\
AC=(not shown)
AD=(not shown)
CO=(not shown)
";

/// What the reasons of `passed.csv` say.
pub const REASONS: &str = "\
17=asks about an item: changes nothing
23=asks about a patron: changes nothing
35=ends a patron's session: changes nothing
63=asks about a patron: changes nothing
93=a machine logs in: changes nothing
97=asks for the last response again: changes nothing
99=a machine tells its status: changes nothing
title=names its item by a title alone: not done here, do it by hand if the server did
too_long=has more than 4,096 bytes
too_short=is cut short: nothing was done
unknown_kind=is of no kind that the rules know
bad_date=has no date where one must stand
bad_flag=has neither yes nor no where one must stand
bad_amount=has no amount of money where one must stand
bad_field=has a field that breaks the format
missing_field=lacks a field that it needs
";

/// The types of fees.
pub const FEE_TYPES: &str = "\
01=other
02=administrative
03=damage
04=overdue
05=processing
06=rental
07=replacement
08=computer access
09=hold
";

/// What a request of each kind is called, `;`, and what several of them are.
pub const REQUESTS: &str = "\
01=block;blocks
09=return;returns
11=checkout;checkouts
15=hold;holds
19=update of an item;updates of items
25=end of a block;ends of blocks
29=renewal;renewals
37=payment;payments
65=renewal of all loans;renewals of all loans
";

/// How much each word of the report weighs: 1 where the server did another thing than the rules, so that its records may be wrong; 2
/// where only what it said is wrong; 3 where nobody can read what it did.
pub const WEIGHTS: &str = "\
ok=1
accepted=1
renewed=1
unrenewed=1
renewed_items=1
unrenewed_items=1
due=2
fee=2
alert=2
available=2
status=2
valid=2
missing=3
unreadable=3
kind=3
";

/// What each word of the report says.
pub const WORDS: &str = "\
ok=whether it was done
accepted=whether a payment was taken
renewed=how many items were renewed
unrenewed=how many items were not
renewed_items=which items were renewed
unrenewed_items=which items were not
due=the due date
fee=the rental
alert=whether somebody waits
available=whether it is on the shelf
status=the privileges
valid=whether there is such a patron
missing=no response
unreadable=no readable response
kind=a response to something else
";

/// What the reasons of an answer say, in general.
pub const ANSWERED: &str = "\
unknown_patron=a patron whom no table has
unknown_item=an item that no table has
own_loan=the patron's own loan
lent=lent to another
third_party=lent to another
not_lent=not lent
queue=another waits first
waited_for=others wait
blocked=the patron is blocked
max_loans=too many loans
max_fees=too much is owed
max_renewals=renewed too often
rental=nobody agreed to the rental
has_entry=the patron waits already
queue_full=too many wait
no_entry=the patron does not wait
returned_late=returned late
";

/// The months of a year.
pub const MONTHS: &str = "\
01=January
02=February
03=March
04=April
05=May
06=June
07=July
08=August
09=September
10=October
11=November
12=December
";

/// Whether a patron is blocked.
pub const BLOCKED: &str = "\
Y=blocked
N=free
";

/// Whether a part of a line of a list fits a text: `*` fits any.
pub(crate) fn fits(part: &[u8], text: &[u8]) -> bool {
    part == b"*".as_slice() || part == text
}

/// What stands for a code in a list; nothing where the list doesn't have it.
pub fn known(list: &'static str, code: &[u8]) -> &'static [u8] {
    for line in split(list.as_bytes(), b'\n') {
        let (name, words) = cut(line, b'=');
        if name == code {
            return words;
        }
    }
    b""
}
