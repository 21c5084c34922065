// Lists a shelf file that stands on the standard input (document 01, "The lister"). The text is `file_listing::list_file`'s; here
// it is only read and written.
#![tactic(auto)]

ghost use Rattle.std.specs.Prelude.{◌≡◌, ◌+◌, ◌≤◌, length, IfOk};
ghost use Rattle.file.specs.Layout.{largest_file};
ghost use Rattle.file_listing.specs.Listing.{listing, list_of};
ghost use Rattle.file_listing.specs.Answer.{largest_list};

use refusal::Refusal;
use std::io::{self, Read};

// Reads a file into a buffer that has room for one byte more than the largest: what was cut off at its end is too long for a
// file. Its like in `programmes` is as private: it asks for a buffer of that length, and a public function asks nothing.
fn read_whole<R: Read>(reader: &mut R, buffer: &mut [u8]) -> io::Result<usize>
    requires { length buffer.old ≡ largest_file + 1 }
    ensures { IfOk result (λ n. n ≤ length buffer.new) }
{
    input::read_input(reader, buffer)
}

// Lists a file into a room for the longest listing, so that none is refused (`AlwaysListed` of file_listing).
fn list_whole(file: &[u8], text: &mut [u8]) -> Result<usize, Refusal>
    requires { length text.old ≡ largest_list }
    ensures { listing result text.new ≡ list_of file.now text.old }
{
    file_listing::list_file(file, text)
}

// What `programmes` shares with this stands in `input`; the rest differs in the room, the listing and the words.
fn main(rt: HostRuntime) -> io::Result<()> {
    let mut reader = rt.stdin();
    let mut buffer = [0u8; input::BUFFER];
    match read_whole(&mut reader, &mut buffer) {
        Ok(n) => {
            let mut text = [0u8; file_listing::LARGEST];
            match list_whole(&buffer[..n], &mut text) {
                Ok(size) => rt.write_all(&text[..size]),
                // No listing is longer than the text's room.
                Err(_) => Ok(()),
            }
        }
        Err(_) => eprintln!(rt; "lister: read failed"),
    }
}
