// The arguments of calls and directives: their names, and what each takes.

use ipc_words::{
    is_name, number, number_16, number_32, signed_16, signed_32, signed_64, split_field,
};

/// An argument of a call or a directive, or a part of one.
#[derive(Clone, Copy, Debug, PartialEq, Eq)]
pub enum Argument {
    Key,
    Id,
    /// The flags of a get, which have a mode in them.
    GetFlags,
    /// Those of any other call.
    Flags,
    Size,
    MType,
    MsgTyp,
    Text,
    NSems,
    Num,
    Value,
    Op,
    /// NUM, OP and FLAGS of an OP.
    OpNum,
    OpValue,
    OpFlags,
    Timeout,
    Att,
    Offset,
    Len,
    Kind,
    Uid,
    Gid,
    Mode,
    QBytes,
    Pid,
    Groups,
    /// Another client, by its name.
    Client,
    /// A process by its pid, or a client by its name.
    Target,
    /// groups=, caps= or saved=.
    Creds,
    Time,
}

/// What an argument is made of.
#[derive(Clone, Copy, Debug, PartialEq, Eq)]
pub(crate) enum Shape {
    /// A number without a sign, with as many bits.
    Number(u32),
    /// A number that may have one.
    Signed(u32),
    Text,
    Op,
    Kind,
    Groups,
    Name,
    Target,
    Creds,
}

impl Argument {
    /// What it is called in the documents, and what it is made of.
    fn facts(self) -> (&'static str, Shape) {
        match self {
            Argument::Key => ("KEY", Shape::Number(32)),
            Argument::Id => ("ID", Shape::Number(32)),
            Argument::GetFlags | Argument::Flags => ("FLAGS", Shape::Number(32)),
            Argument::OpFlags => ("FLAGS", Shape::Number(16)),
            Argument::Size => ("SIZE", Shape::Number(64)),
            Argument::MType => ("MTYPE", Shape::Signed(64)),
            Argument::MsgTyp => ("MSGTYP", Shape::Signed(64)),
            Argument::Text => ("TEXT", Shape::Text),
            Argument::NSems => ("NSEMS", Shape::Number(32)),
            Argument::Num => ("NUM", Shape::Number(32)),
            Argument::OpNum => ("NUM", Shape::Number(16)),
            Argument::Value => ("VALUE", Shape::Signed(32)),
            Argument::Op => ("OP", Shape::Op),
            Argument::OpValue => ("OP", Shape::Signed(16)),
            Argument::Timeout => ("TIMEOUT", Shape::Number(64)),
            Argument::Att => ("ATT", Shape::Number(32)),
            Argument::Offset => ("OFFSET", Shape::Number(64)),
            Argument::Len => ("LEN", Shape::Number(64)),
            Argument::Kind => ("KIND", Shape::Kind),
            Argument::Uid => ("UID", Shape::Number(32)),
            Argument::Gid => ("GID", Shape::Number(32)),
            Argument::Mode => ("MODE", Shape::Number(32)),
            Argument::QBytes => ("QBYTES", Shape::Number(64)),
            Argument::Pid => ("PID", Shape::Number(32)),
            Argument::Groups => ("groups=G,..", Shape::Groups),
            Argument::Client => ("CLIENT", Shape::Name),
            Argument::Target => ("PID", Shape::Target),
            Argument::Creds => ("[groups=G,..] [caps=CAP,..] [saved=UID:GID]", Shape::Creds),
            Argument::Time => ("NUMBER", Shape::Number(64)),
        }
    }

    pub fn name(self) -> &'static str {
        self.facts().0
    }

    pub(crate) fn shape(self) -> Shape {
        self.facts().1
    }

    /// The numbers that it takes.
    pub(crate) fn range(self) -> &'static str {
        match self.shape() {
            Shape::Number(16) => "0 to 65535",
            Shape::Number(64) => "0 to 18446744073709551615",
            Shape::Signed(16) => "-32768 to 32767",
            Shape::Signed(32) => "-2147483648 to 2147483647",
            Shape::Signed(_) => "-9223372036854775808 to 9223372036854775807",
            _ => "0 to 4294967295",
        }
    }

    /// Whether flags or permission bits stand in it.
    pub(crate) fn has_flags(self) -> bool {
        matches!(
            self,
            Argument::GetFlags | Argument::Flags | Argument::OpFlags | Argument::Mode
        )
    }

    /// Whether it takes the word.
    pub fn takes(self, word: &[u8]) -> bool {
        match self.shape() {
            Shape::Number(16) => number_16(word).is_some(),
            Shape::Number(32) => number_32(word).is_some(),
            Shape::Number(_) => number(word, u64::MAX).is_some(),
            Shape::Signed(16) => signed_16(word).is_some(),
            Shape::Signed(32) => signed_32(word).is_some(),
            Shape::Signed(_) => signed_64(word).is_some(),
            Shape::Text => is_text(word),
            Shape::Op => is_operation(word),
            Shape::Kind => matches!(word, b"q" | b"s" | b"m"),
            Shape::Groups => is_groups(word),
            Shape::Name => is_name(word),
            Shape::Target => number_32(word).is_some() || is_name(word),
            Shape::Creds => is_option_of_client(word),
        }
    }
}

fn is_text(word: &[u8]) -> bool {
    match word.strip_prefix(b"x:") {
        None => word.starts_with(b"t:"),
        Some(digits) => digits.len() % 2 == 0 && digits.iter().all(is_small_digit),
    }
}

/// Whether a byte is one of the hexadecimal digits of a text.
pub(crate) fn is_small_digit(byte: &u8) -> bool {
    matches!(*byte, b'0'..=b'9' | b'a'..=b'f')
}

fn is_operation(word: &[u8]) -> bool {
    let (num, rest) = split_field(word, b':');
    let Some(rest) = rest else {
        return false;
    };
    let (op, flags) = split_field(rest, b':');
    number_16(num).is_some()
        && signed_16(op).is_some()
        && flags.is_none_or(|flags| number_16(flags).is_some())
}

fn is_option_of_client(word: &[u8]) -> bool {
    word.starts_with(b"groups=") || word.starts_with(b"caps=") || word.starts_with(b"saved=")
}

fn is_groups(word: &[u8]) -> bool {
    match word.strip_prefix(b"groups=") {
        None => false,
        Some(text) => text == b"-".as_slice() || are_numbers(text),
    }
}

/// Whether the text is numbers, with commas between them.
pub fn are_numbers(text: &[u8]) -> bool {
    text.split(|byte| *byte == b',')
        .all(|field| number_32(field).is_some())
}
