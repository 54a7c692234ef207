//! Why a request is refused.
ghost use Rattle.std.specs.Prelude.{◌≡◌};
ghost use Rattle.isp_server.specs.Sent.{code_of, name_of};

/// Why a request is refused: four errors of JSON-RPC 2.0, and two of the language server protocol. The last ones are `RequestFailed`,
/// where nothing is renamed.
#[derive(Clone, Copy, Debug, PartialEq, Eq)]
pub enum Refusal {
    /// The content is no JSON.
    ParseError,
    /// It is no call, its id is none, or the phase of the connection has no such request.
    InvalidRequest,
    /// The method is not known.
    MethodNotFound,
    /// The method does not take such parameters.
    InvalidParams,
    /// `initialize` has not come.
    ServerNotInitialized,
    /// The document is not open, or its text is no program.
    NoProgram,
    /// No variable or function of the program is named at the place.
    NoName,
    /// The new name is no word, or is reserved.
    NotAName,
    /// The library has a function of the new name.
    OfLibrary,
    /// The text with the new name is no program.
    Clash,
    /// A name would stand for something else.
    Captured,
}

impl Refusal {
    /// Its number in the protocol.
    pub fn code(self) -> i32
        ensures { result ≡ code_of self }
    {
        match self {
            Refusal::ParseError => -32700,
            Refusal::InvalidRequest => -32600,
            Refusal::MethodNotFound => -32601,
            Refusal::InvalidParams => -32602,
            Refusal::ServerNotInitialized => -32002,
            Refusal::NoProgram
            | Refusal::NoName
            | Refusal::NotAName
            | Refusal::OfLibrary
            | Refusal::Clash
            | Refusal::Captured => -32803,
        }
    }

    /// Its name in the protocol, and of a request that failed why it did.
    pub fn name(self) -> &'static str
        ensures { result.now ≡ name_of self }
    {
        match self {
            Refusal::ParseError => "ParseError",
            Refusal::InvalidRequest => "InvalidRequest",
            Refusal::MethodNotFound => "MethodNotFound",
            Refusal::InvalidParams => "InvalidParams",
            Refusal::ServerNotInitialized => "ServerNotInitialized",
            Refusal::NoProgram => "NoProgram",
            Refusal::NoName => "NoName",
            Refusal::NotAName => "NotAName",
            Refusal::OfLibrary => "OfLibrary",
            Refusal::Clash => "Clash",
            Refusal::Captured => "Captured",
        }
    }
}
