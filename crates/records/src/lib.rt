// Site and state records, entries and answers between bytes and structs by value: each field is read by one function of its name, as document 02, job 2,
// asks, whose contract is the field's definition, and written by one.
#![tactic(auto)]

ghost use Rattle.std.specs.Prelude.{◌≡◌, ◌+◌, ◌≤◌, ℕ, List, length};
ghost use Rattle.octets.specs.Octets.{field};
ghost use Rattle.model.specs.Site.{reference};

pub mod fields; // fields.rt: the numbers at the offsets of a record, or of none
pub mod site; // site.rt: the fields of site records
pub mod state; // state.rt: the fields of state records, fresh ones, and their writers
pub mod entry; // entry.rt: entries and answers

use model::numbers::RECORD_SIZE;
use octets::Number;

// The bytes of a record.
pub type Record = [u8; RECORD_SIZE];

// A record, or none: none reads as zeros and names nothing.
pub trait Part: Copy {
    ghost bytes: { Self → List ℕ };

    fn number_at<N: Number>(self, at: usize) -> N
        requires { at + N.width ≤ 32 }
        ensures { N.number result ≡ field at N.width (bytes self) };

    // The number of an object that the record names.
    fn reference_at(self, at: usize) -> u32
        requires { at + 4 ≤ 32 }
        ensures { result ≡ reference at (bytes self) };
}

// What is read of a record, or of none. No From: the structs, and arrays, are of other crates, and a law of the bytes goes with each reader and writer.
pub trait FromPart: Copy {
    ghost of_part: { List ℕ → Self };

    fn from_part<P: Part>(part: P) -> Self
        ensures { result ≡ of_part (P.bytes part) };
}

// What a state record holds, as its bytes; what no field fills is zero.
pub trait ToRecord: Copy {
    ghost record_of: { Self → List ℕ };

    // Writes the record in its part of a state, which is lent to it, all of it.
    fn write_record(self, bytes: &mut [u8])
        requires { length bytes.old ≡ 32 }
        ensures { bytes.new ≡ record_of self };

    // The record by itself, by the same writer.
    fn to_record(self) -> Record
        ensures { result ≡ record_of self }
    {
        let mut bytes = [0; RECORD_SIZE];
        self.write_record(&mut bytes);
        bytes
    }
}
