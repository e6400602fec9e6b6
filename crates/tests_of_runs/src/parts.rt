//! What no run shows of crates that read and write.

use csv::ByteRecord;
use csv_table::{RowReader, TableError};
use sip_answer::{Answer, FeePaidAnswer, Reason, is_own_text, write_answer};
use sip_reader::{Id, Stamp};
use std::alloc::{AllocError, AllocGlobal, Global};
use std::process::Abort;
use std::test::Fail;

/// What comes after the first row is returned again at each further call.
fn stay<R: AllocGlobal + Abort>(rt: &R, text: &[u8], end: Result<bool, TableError>) {
    let mut row = ByteRecord::new(rt.alloc());
    let rows = RowReader::under(rt.alloc(), &["a"], text).ok();
    let mut rows = rows.expect(rt, "a header");
    assert!(rt; rows.next(&mut row) == Ok(true));
    for _ in 0..2 {
        assert!(rt; rows.next(&mut row) == end);
    }
}

#[test]
fn stays_at_the_end(rt: HostRuntime) {
    stay(&rt, b"a\nx\ny,z\n", Err(TableError::Table));
    stay(&rt, b"a\nx", Ok(false));
}

/// The response to a payment.
fn payment(alloc: Global) -> Result<Option<Answer>, AllocError> {
    let (institution, patron) = (Id::read(alloc, b"L1")?, Id::read(alloc, b"P1")?);
    match (institution, patron, Stamp::new(b"20260309    120000")) {
        (Some(institution), Some(patron), Some(date)) => Ok(Some(Answer::FeePaid(FeePaidAnswer {
            date,
            accepted: true,
            reason: Reason::Paid,
            institution,
            patron,
        }))),
        _ => Ok(None),
    }
}

/// An answer's own text is seen at once, a line end after it too, and no other text is.
fn see<R: AllocGlobal + Abort>(rt: &R, answer: &Answer) -> Result<(), Fail> {
    let sequence = Some(b'3');
    let written = write_answer(rt.alloc(), answer, sequence)?;
    let text = written.as_slice();
    assert!(rt;
        is_own_text(
            answer,
            sequence,
            text,
            b"38Y20260309    120000AOL1|AAP1|AY3AZF793\r\n"
        )
    );
    assert!(rt;
        !is_own_text(
            answer,
            sequence,
            text,
            b"38Y20260309    120000AOL1|AAP2|AY3AZF792\r\n"
        )
    );
    Ok(())
}

#[test]
fn own_text(rt: HostRuntime) -> Result<(), Fail> {
    see(&rt, &payment(rt.alloc())?.expect(&rt, "an answer"))
}
