//! The names and the texts of faults.
ghost use Rattle.std.specs.Prelude.{◌≡◌, ◌++◌, ◌∷◌, ◌+◌, drop, length};
ghost use Rattle.jirmoans.specs.Names.{copied, name_of, text_of};

/// Copies the name of a fault with a NUL behind it, where there is room for both; where there is none nothing is copied. Answers the name's bytes, without the NUL.
#[unsafe(no_mangle)]
pub extern "C" fn jirmoans_fault_name(code: u32, room: &mut [u8]) -> usize
    ensures len { result ≡ length (name_of code) }
    ensures copied { room.new ≡ copied (name_of code) room.old }
{
    copy_text(name_of(code), room)
}

/// Copies what a fault says with a NUL behind it, where there is room for both; where there is none nothing is copied. Answers the text's bytes, without the NUL.
#[unsafe(no_mangle)]
pub extern "C" fn jirmoans_fault_text(code: u32, room: &mut [u8]) -> usize
    ensures len { result ≡ length (text_of code) }
    ensures copied { room.new ≡ copied (text_of code) room.old }
{
    copy_text(text_of(code), room)
}

fn copy_text(text: &str, room: &mut [u8]) -> usize
    ensures len { result ≡ length text.now }
    ensures copied { room.new ≡ copied text.now room.old }
{
    let bytes = text.as_bytes();
    let len = bytes.len();
    if len < room.len() {
        room[..len].copy_from_slice(bytes);
        room[len] = 0;
    }
    len
}

fn name_of(code: u32) -> &'static str
    ensures { result.now ≡ name_of code }
{
    match code {
        0 => "Ok",
        1 => "OutOfRange",
        2 => "BreakInLine",
        3 => "TooManyLines",
        4 => "TooLarge",
        5 => "NestedTooDeep",
        6 => "InlineTooDeep",
        7 => "NoMemory",
        8 => "NotDefinitions",
        9 => "NotUtf8",
        10 => "NoSuchUnit",
        11 => "NotOpen",
        12 => "AlreadyOpen",
        13 => "UnknownBreaks",
        14 => "LimitTooLarge",
        15 => "NotJson",
        16 => "BadEntry",
        _ => "Unknown",
    }
}

fn text_of(code: u32) -> &'static str
    ensures { result.now ≡ text_of code }
{
    match code {
        0 => "all went well",
        1 => "the edit reaches past the text",
        2 => "an added line holds a line ending",
        3 => "the text is refused: it has more than 1,000,000 lines",
        4 => "the text is refused: it has more than 16,777,216 bytes",
        5 => "the text is refused: a container lies in too many others",
        6 => "the text is refused: a span lies in too many others",
        7 => "no memory",
        8 => "the prelude is refused: a block is no definition",
        9 => "the bytes are not UTF-8",
        10 => "the text has no such unit",
        11 => "no preview is open",
        12 => "a preview is open already",
        13 => "there is no such way to write line breaks",
        14 => "a limit is greater than 256",
        15 => "the entity file is not JSON",
        16 => "bad entry in entity file",
        _ => "there is no such fault",
    }
}
