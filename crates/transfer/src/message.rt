// Payloads: read into an enum that holds parts of the bytes, and written from it.
ghost use Rattle.std.specs.Prelude.{◌≡◌, ◌+◌, ◌/◌, ◌%◌, ◌≤◌, ◌∷◌, length, IfSome};
ghost use Rattle.bits.specs.Lists.{zeros};
ghost use Rattle.transfer_theory.specs.Payload.{payload};
ghost use Rattle.transfer.specs.Messages.{Means, Short, Fits, saying};

// The bytes of a payload, of its head, and of a part.
pub const PAYLOAD: usize = 221;

pub const HEAD: usize = 7;

pub const PART: usize = 214;

// What a payload says. A part's body is any slice, since whoever makes a message may give one; that a payload holds no more than 214 bytes is asked where it is written.
#[derive(Clone, Copy, PartialEq, Eq, Debug)]
pub enum Message<'a> {
    Part {
        file: u8,
        number: u16,
        body: &'a [u8],
    },
    End {
        file: u8,
        length: u32,
    },
    Ask {
        file: u8,
        number: u16,
    },
    Done {
        file: u8,
    },
}

// Reads a payload; one of no known kind says nothing.
pub fn read(payload: &[u8; PAYLOAD]) -> Option<Message<'_>>
    ensures meant { Means payload.now result }
    ensures short { IfSome result Short }
{
    let bytes: &[u8] = payload;
    let [kind, file, high, low, count, _, _, b0, b1, b2, b3, ..] = bytes else {
        return None;
    };
    let file = *file;
    let number = u16::from_be_bytes([*high, *low]);
    match *kind {
        1 => {
            let count = usize::from(*count).min(PART);
            let body = &bytes[HEAD..HEAD + count];
            Some(Message::Part { file, number, body })
        }
        2 => {
            let length = u32::from_be_bytes([*b0, *b1, *b2, *b3]);
            Some(Message::End { file, length })
        }
        3 => Some(Message::Ask { file, number }),
        4 => Some(Message::Done { file }),
        _ => None,
    }
}

impl Message<'_> {
    // The payload that says it.
    pub(crate) fn payload(self) -> [u8; PAYLOAD]
        requires { Fits self }
        ensures { result ≡ saying self.entry }
    {
        match self {
            Message::Part { file, number, body } => build(1, file, number, body),
            Message::End { file, length } => {
                build(2, file, parts_of(length), &length.to_be_bytes())
            }
            Message::Ask { file, number } => build(3, file, number, &[]),
            Message::Done { file } => build(4, file, 0, &[]),
        }
    }
}

// How many parts a file of so many bytes has.
pub(crate) fn parts_of(length: u32) -> u16
    requires { length ≤ 214000 }
    ensures { result ≡ (length + 213) / 214 }
{
    length.div_ceil(PART as u32) as u16
}

// The head of a payload, and zeros behind it.
fn head(kind: u8, file: u8, number: u16, count: u8) -> [u8; PAYLOAD]
    ensures { result ≡ kind ∷ file ∷ number / 256 ∷ number % 256 ∷ count ∷ 0 ∷ 0 ∷ zeros 214 }
{
    let [high, low] = number.to_be_bytes();
    let mut out = [0; PAYLOAD];
    out[..5].copy_from_slice(&[kind, file, high, low, count]);
    out
}

// The one builder of payloads: head, body, zeros.
#[tactic(auto, using(crate::proofs::Bytes::payload_written))]
fn build(kind: u8, file: u8, number: u16, body: &[u8]) -> [u8; PAYLOAD]
    requires { length body.now ≤ 214 }
    ensures { result ≡ payload kind file number body.now }
{
    let mut out = head(kind, file, number, body.len() as u8);
    out[HEAD..HEAD + body.len()].copy_from_slice(body);
    out
}
