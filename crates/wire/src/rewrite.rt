// A message rewritten in its shortest form: "a writer that reads any message the reader takes and writes its shortest form into a lent buffer".
ghost use Rattle.wire.specs.Rewrite.Answers.{number_told, length_told};
ghost use Rattle.wire.specs.Rewrite.RewriteCalls.{Rewrites};

use crate::encode;
use crate::reader::fault::Fault;
use crate::reader::message;

// Writes the shortest form of a message, and answers how many bytes it has: questions 7, 8 and 9 by reading the message, then 14 of the form's size. A refusal writes nothing.
pub fn rewrite(bytes: &[u8], out: &mut [u8]) -> Result<usize, Fault>
    ensures { Rewrites bytes.now out.old out.new (number_told result) (length_told result) }
{
    let message = message::decode_message(bytes)?;
    let size = encode::size(&message);
    if out.len() < size {
        return Err(Fault::Output);
    }
    Ok(encode::put(out, 0, &message))
}
