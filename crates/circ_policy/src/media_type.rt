//! The types of media.

ghost use Rattle.std.specs.Prelude.{◌≡◌};
ghost use Rattle.circ_policy.specs.Medias.{media_code, media_of_code};

/// A type of media, of those that SIP 2.00 has.
#[derive(Clone, Copy, PartialEq, Eq)]
pub enum MediaType {
    Other,
    Book,
    Magazine,
    BoundJournal,
    AudioTape,
    VideoTape,
    Cd,
    Diskette,
    BookWithDiskette,
    BookWithCd,
    BookWithTape,
}

impl MediaType {
    /// Gives the three ASCII digits that the standard has for this type, each type others.
    pub fn code(self) -> [u8; 3]
        ensures { result ≡ media_code self }
    {
        match self {
            MediaType::Other => *b"000",
            MediaType::Book => *b"001",
            MediaType::Magazine => *b"002",
            MediaType::BoundJournal => *b"003",
            MediaType::AudioTape => *b"004",
            MediaType::VideoTape => *b"005",
            MediaType::Cd => *b"006",
            MediaType::Diskette => *b"007",
            MediaType::BookWithDiskette => *b"008",
            MediaType::BookWithCd => *b"009",
            MediaType::BookWithTape => *b"010",
        }
    }

    /// Gives the type with this code; None for any code of no type.
    #[tactic(auto, unfolding(crate::specs::Medias::media_of_code))]
    pub fn of_code(code: &[u8]) -> Option<MediaType>
        ensures { result ≡ media_of_code code.now }
    {
        ALL.iter()
            .copied()
            .find(|media| media.code().as_slice() == code)
    }
}

/// All types, in the order of their codes.
const ALL: [MediaType; 11] = [
    MediaType::Other,
    MediaType::Book,
    MediaType::Magazine,
    MediaType::BoundJournal,
    MediaType::AudioTape,
    MediaType::VideoTape,
    MediaType::Cd,
    MediaType::Diskette,
    MediaType::BookWithDiskette,
    MediaType::BookWithCd,
    MediaType::BookWithTape,
];
