//! Whether what a table says of a line can be said of this request. Of another journal with the same lines and connections it
//! mostly can't.

/// Where the date is in a request and in its answer, by the first two bytes of both (3M's SIP 2.00).
struct Shape {
    asks: &'static [u8],
    asked_at: usize,
    answers: &'static [u8],
    answered_at: usize,
}

static SHAPES: [Shape; 9] = [
    Shape {
        asks: b"01",
        asked_at: 3,
        answers: b"24",
        answered_at: 19,
    },
    Shape {
        asks: b"09",
        asked_at: 3,
        answers: b"10",
        answered_at: 6,
    },
    Shape {
        asks: b"11",
        asked_at: 4,
        answers: b"12",
        answered_at: 6,
    },
    Shape {
        asks: b"15",
        asked_at: 3,
        answers: b"16",
        answered_at: 4,
    },
    Shape {
        asks: b"19",
        asked_at: 2,
        answers: b"20",
        answered_at: 3,
    },
    Shape {
        asks: b"25",
        asked_at: 2,
        answers: b"26",
        answered_at: 19,
    },
    Shape {
        asks: b"29",
        asked_at: 4,
        answers: b"30",
        answered_at: 6,
    },
    Shape {
        asks: b"37",
        asked_at: 2,
        answers: b"38",
        answered_at: 3,
    },
    Shape {
        asks: b"65",
        asked_at: 2,
        answers: b"66",
        answered_at: 11,
    },
];

/// The length of a date.
const DATE: usize = 18;

/// Whether an answer can be one to this request: it is of the kind that answers it, and has its date; or it asks for the request again.
pub fn answers_to(request: &[u8], answer: &[u8]) -> bool {
    if answer.starts_with(b"96") {
        return true;
    }
    for shape in &SHAPES {
        if request.starts_with(shape.asks) {
            return answer.starts_with(shape.answers)
                && date_at(request, shape.asked_at) == date_at(answer, shape.answered_at);
        }
    }
    false
}

/// The date that begins at a byte of a message; nothing of a shorter message.
fn date_at(message: &[u8], at: usize) -> &[u8] {
    message.get(at..at.saturating_add(DATE)).unwrap_or(b"")
}

/// Whether a request can be passed over for this reason: one of two digits is its kind.
pub fn passed_for(request: &[u8], why: &[u8]) -> bool {
    why.len() != 2 || request.starts_with(why)
}

/// Whether the words of the report can be said of a recorded response: `missing` exactly where nothing but line ends is recorded.
pub fn said_of(response: &[u8], words: &[u8]) -> bool {
    (words == b"missing".as_slice()) == response.iter().all(|byte| matches!(*byte, b'\r' | b'\n'))
}
