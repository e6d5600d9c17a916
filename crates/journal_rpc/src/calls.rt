// Calls, read from records.
ghost use Rattle.std.specs.Prelude.{◌≡◌, IfSome, IfNone};
ghost use Rattle.journal_xdr.specs.Items.{ReadsItem};
ghost use Rattle.journal_rpc.specs.Calls.{beginning, auth, target, Message, IsCall};
ghost use Rattle.journal_rpc.specs.CallViews.{beginning_of, auth_of, target_of, message_of, asked_of, ReadsCall, Routes, routed, request_of};

use crate::protocol::{AUTH_BYTES, AUTH_NONE, CALL, RPC_VERSION};
use crate::replies::CallRefused;
use journal_xdr::Reader;

/// A call: its number, which the reply repeats, and the procedure that it asks for.
#[derive(Clone, Copy, Debug)]
pub struct Call<'a> {
    /// The number that the caller gave it.
    pub xid: u32,
    /// What it says of its caller. Of a call in another version of RPC it is not read, and
    /// AUTH_NONE stands for it.
    pub credential: Auth<'a>,
    /// The procedure that it asks for.
    pub asked: Asked<'a>,
}

/// The procedure that a call asks for.
#[derive(Clone, Copy, Debug)]
pub enum Asked<'a> {
    /// Something in another version of RPC than 2. The bytes after the version are not read.
    OtherVersion,
    /// A procedure of a version of a program. Any verifier is accepted.
    Procedure {
        /// The program's number.
        program: u32,
        /// The program's version.
        version: u32,
        /// The procedure's number.
        procedure: u32,
        /// All bytes after the header.
        arguments: &'a [u8],
    },
}

// AUTH_NONE, with no bytes.
const NO_AUTH: Auth<'static> = Auth {
    flavor: AUTH_NONE,
    body: &[],
};

/// A call's request to the program that it names.
#[derive(Clone, Copy, Debug)]
pub struct Request<'a> {
    /// The procedure's number.
    pub procedure: u32,
    /// All bytes after the call's header.
    pub arguments: &'a [u8],
}

// The beginning of every call.
#[derive(Clone, Copy)]
struct Beginning {
    xid: u32,
    rpc_version: u32,
}

/// A credential or a verifier (RFC 5531, section 8.2).
#[derive(Clone, Copy, Debug)]
pub struct Auth<'a> {
    /// Its kind.
    pub flavor: u32,
    /// At most 400 bytes, which its kind gives a meaning.
    pub body: &'a [u8],
}

// The rest of a call's header.
#[derive(Clone, Copy)]
struct Target<'a> {
    program: u32,
    version: u32,
    procedure: u32,
    credential: Auth<'a>,
    verifier: Auth<'a>,
}

// A call in another version of RPC is a call, so that one function makes each refusal that has a
// reply.
/// The call of a record's bytes (RFC 5531, section 9), lent from them. `None` if they are none: the
/// header is cut short, is not a call's, or has a credential or a verifier of more than 400 bytes
/// or with padding other than zeros.
pub fn read_call(bytes: &[u8]) -> Option<Call<'_>>
    ensures reading { ReadsCall bytes.now result }
    ensures found { IfSome result (λ call. IsCall bytes.now (message_of call)) }
    ensures none { IfNone result ((message : Message) → ¬ (IsCall bytes.now message)) }
{
    read_message(bytes)
}

impl<'a> Call<'a> {
    /// The request of the call to a program that is served in one version.
    ///
    /// # Errors
    /// The first that holds is answered. Nothing is done.
    /// - The call is in another version of RPC.
    /// - It asks for another program.
    /// - It asks for another version of this program.
    pub fn request(&self, program: u32, version: u32) -> Result<Request<'a>, CallRefused>
        ensures exact { request_of result ≡ routed program version (asked_of self.now.asked) }
        ensures cases { Routes program version (asked_of self.now.asked) result }
    {
        match self.asked {
            Asked::OtherVersion => Err(CallRefused::RpcMismatch),
            Asked::Procedure {
                program: asked_program,
                version: asked_version,
                procedure,
                arguments,
            } => {
                if asked_program != program {
                    Err(CallRefused::ProgramUnavailable)
                } else if asked_version != version {
                    Err(CallRefused::ProgramMismatch { version })
                } else {
                    Ok(Request {
                        procedure,
                        arguments,
                    })
                }
            }
        }
    }
}

#[tactic(auto, unfolding(crate::specs::Calls::message))]
fn read_message(bytes: &[u8]) -> Option<Call<'_>>
    ensures { ReadsCall bytes.now result }
{
    let mut reader = Reader::new(bytes);
    let beginning = read_beginning(&mut reader)?;
    if beginning.rpc_version != RPC_VERSION {
        return Some(Call {
            xid: beginning.xid,
            credential: NO_AUTH,
            asked: Asked::OtherVersion,
        });
    }
    let target = read_target(&mut reader)?;
    Some(Call {
        xid: beginning.xid,
        credential: target.credential,
        asked: Asked::Procedure {
            program: target.program,
            version: target.version,
            procedure: target.procedure,
            arguments: reader.rest(),
        },
    })
}

#[tactic(auto, unfolding(crate::specs::Calls::beginning))]
fn read_beginning(reader: &mut Reader<'_>) -> Option<Beginning>
    ensures { ReadsItem beginning beginning_of reader.old reader.new result }
{
    let xid = reader.word()?;
    if reader.word()? != CALL {
        return None;
    }
    let rpc_version = reader.word()?;
    Some(Beginning { xid, rpc_version })
}

#[tactic(auto, unfolding(crate::specs::Calls::auth))]
fn read_auth<'a>(reader: &mut Reader<'a>) -> Option<Auth<'a>>
    ensures { ReadsItem auth auth_of reader.old reader.new result }
{
    Some(Auth {
        flavor: reader.word()?,
        body: reader.opaque(AUTH_BYTES)?,
    })
}

#[tactic(auto, unfolding(crate::specs::Calls::target))]
fn read_target<'a>(reader: &mut Reader<'a>) -> Option<Target<'a>>
    ensures { ReadsItem target target_of reader.old reader.new result }
{
    Some(Target {
        program: reader.word()?,
        version: reader.word()?,
        procedure: reader.word()?,
        credential: read_auth(reader)?,
        verifier: read_auth(reader)?,
    })
}
