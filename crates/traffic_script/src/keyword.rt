// The first words of lines.
ghost use Rattle.std.specs.Prelude.{◌≡◌};
ghost use Rattle.traffic_script.specs.Statements.{keyword_of};

use crate::fault::ScriptCode;

/// What the first word of a line names.
#[derive(Drop)]
pub enum Keyword {
    Write,
    Read,
    Ignore,
    Debug,
    Copy,
    Add,
    FetchAdd,
    Wait,
    Sync,
    Fence,
    Invalidate,
    Repeat,
    End,
}

pub fn read_keyword(word: &[u8]) -> Result<Keyword, ScriptCode>
    ensures { result ≡ keyword_of word.now }
{
    match word {
        b"write" => Ok(Keyword::Write),
        b"read" => Ok(Keyword::Read),
        b"ignore" => Ok(Keyword::Ignore),
        b"debug" => Ok(Keyword::Debug),
        b"copy" => Ok(Keyword::Copy),
        b"add" => Ok(Keyword::Add),
        b"fetch_add" => Ok(Keyword::FetchAdd),
        b"wait" => Ok(Keyword::Wait),
        b"sync" => Ok(Keyword::Sync),
        b"fence" => Ok(Keyword::Fence),
        b"invalidate" => Ok(Keyword::Invalidate),
        b"repeat" => Ok(Keyword::Repeat),
        b"end" => Ok(Keyword::End),
        _ => Err(ScriptCode::UnknownOperation),
    }
}
