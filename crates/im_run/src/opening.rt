//! The opening of an image, before a script is run on it.
ghost use Rattle.std.specs.Prelude.{◌≡◌, IfOk, IfErr};
ghost use Rattle.im_text.specs.Said.{output, output_by};
ghost use Rattle.im_serial.specs.{Once.HasServedNothing, Serving.NotOpened, Serving.seen_by};

use im_disk::Disk;
use im_serial::{Desk, Server};
use im_session::Session;
use im_text::{News, Reason, Style, diagnose, end};
use im_types::Observer;
use std::alloc::Global;
use std::io::Write;

/// Opens the image of a disk, and makes a server over it. If that is refused, the reason is printed, and the status and
/// the disk are returned.
pub(crate) fn open_server<D: Disk, W: Write, N: Observer<News>>(
    alloc: Global,
    style: Style,
    disk: D,
    out: &mut W,
    observer: &mut N,
) -> Result<Server<D>, (u8, D)>
    ensures nothing { IfOk result (λ server. HasServedNothing (seen_by server (W.contents out.new))
        server.bases.items) }
    ensures output { IfOk result (λ server. output_by server.lines (W.contents out.new)
        ≡ output style (W.contents out.old)) }
    ensures opened { IfOk result (λ server. server.session.start.disk ≡ disk) }
    ensures status { IfErr result (λ r. r.0 ≡ 1) }
    ensures refused { IfErr result (λ r. D.honest r.1
        → NotOpened D.now D.past disk r.1 (output style (W.contents out.old)) (W.contents out.new) r.0) }
    ensures honest { IfErr result (λ r. D.honest r.1 → D.honest disk) }
{
    let Ok(desk) = Desk::new(alloc, style) else {
        return Err((end(alloc, style, Err(Reason::Memory), out, observer), disk));
    };
    match Session::open(alloc, disk) {
        Ok(session) => {
            let server = Server::new(alloc, session, desk);
            Ok(server)
        }
        Err((refusal, mut disk)) => {
            let reason = diagnose(alloc, &mut disk, refusal);
            let status = end(alloc, style, Err(reason), out, observer);
            Err((status, disk))
        }
    }
}
