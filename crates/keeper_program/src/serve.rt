// Lines in, lines out, through buffers.
use answering::answer::answer;
use fields::buffer::Buffer;
use keeper::keeper::Keeper;
use protocol::store::Store;
use std::io;
use std::io::{BufWriter, ErrorKind, Read, Write};
use texts::text::Text;

// How much is read at a time.
const CHUNK: usize = 65536;

// A keeper that is served with lines: the line that is coming in, the reply to the last one, and where
// replies go.
#[derive(Drop)]
struct Served<S: Store, W> {
    keeper: Keeper<S>,
    line: Buffer,
    reply: Buffer,
    output: W,
}

impl<T: Text, S: Store<Value = T>, W: Write> Served<S, W> {
    // Answers the line that has come, and makes room for the next. Of a line that is too long the first
    // 1,024 bytes are kept: they have no line feed, so they are refused as the line would be.
    fn answer_line(&mut self) -> io::Result<()> {
        answer(&mut self.keeper, self.line.kept(), &mut self.reply);
        self.line.clear();
        self.output.write_all(self.reply.kept())
    }

    // Takes bytes that have come: answers each line that ends among them, and sends the replies out before
    // more input is waited for.
    fn take(&mut self, bytes: &[u8]) -> io::Result<()> {
        for byte in bytes {
            self.line.byte(*byte);
            if *byte == b'\n' {
                self.answer_line()?;
            }
        }
        self.output.flush()
    }

    // What stands behind the last line feed is a line without one, and is refused as such.
    fn end(&mut self) -> io::Result<()> {
        if self.line.count > 0 {
            self.answer_line()?;
        }
        self.output.flush()
    }
}

// Serves the keeper until the input ends. Not the library's copy: that takes 8,192 bytes at a time, and with
// replies behind each piece a peer that writes before it reads is held up sooner.
pub fn serve<T: Text, S: Store<Value = T>>(rt: &HostRuntime, keeper: Keeper<S>) -> io::Result<()>
where
    S: Drop,
{
    let mut served = Served {
        keeper,
        line: Buffer::new(),
        reply: Buffer::new(),
        output: BufWriter::new(rt.alloc(), rt.stdout())?,
    };
    let mut input = rt.stdin();
    let mut chunk = vec![in rt.alloc(); 0u8; CHUNK]?;
    for _ in 0..u64::MAX {
        match input.read(&mut chunk) {
            Ok(0) => break,
            Ok(n) => served.take(&chunk[..n])?,
            Err(e) if e.kind() == ErrorKind::Interrupted => {}
            Err(e) => return Err(e),
        }
    }
    served.end()
}
