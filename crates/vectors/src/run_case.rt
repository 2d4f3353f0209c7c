// Run cases: a list over an image and a Dst.
use crate::form::{Kind, place};
use crate::lines::{NOTHING, checksum, print};
use crate::made::{DST, Host, IMAGE, LIST};
use host::replay_run;
use std::io;
use std::io::{Read, Write};

// What a host lends, and how much of the image, the Dst and the list.
pub(crate) fn run_case<R: Read, W: Write>(input: &mut R, out: &mut W) -> io::Result<()> {
    let mut host = Host::zeros();
    host.fill(input);
    let image = &mut host.image[..place(input, IMAGE)];
    let dst = &mut host.dst[..place(input, DST)];
    let list = &host.list[..place(input, LIST)];
    let mut outcome = [0u32; 20];
    replay_run(&host.settings, image, dst, list, &mut outcome);
    let sum = checksum(checksum(NOTHING, image), dst);
    print(out, Kind::Run, &outcome, sum)
}
