// Standard input, and whether it could be read: a read that fails is not the end of the input.
ghost use Rattle.std.specs.Prelude.{MatchResult};
ghost use Rattle.replay.specs.Input.{IsPrefixLen};

use std::io::Read;

// A read failed: how many bytes were read before it.
#[derive(Clone, Copy)]
pub(crate) struct Failed {
    pub length: usize,
}

// Reads until buf is full or the input ends: how many bytes. Why a read failed is not looked at, so that one which a signal interrupted counts as
// failed too; the program handles no signal, and the system then takes such a read up again by itself.
pub(crate) fn read_all<R: Read>(reader: &mut R, buf: &mut [u8]) -> Result<usize, Failed>
    ensures { MatchResult result (λ n. IsPrefixLen n buf.new) (λ f. IsPrefixLen f.length buf.new) }
{
    let mut length: usize = 0;
    // what a read gives decides how far the next one goes, so that no range counts it
    while length < buf.len() {
        match reader.read(&mut buf[length..]) {
            Ok(0) => break,
            Ok(n) => length += n,
            Err(_) => return Err(Failed { length }),
        }
    }
    Ok(length)
}
