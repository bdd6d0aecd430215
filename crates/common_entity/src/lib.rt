// The entity prefix (`read_common_entity_data`): src/common_entity.rs of dwg-rs, section 20.4.1 of the ODA's specification.
// The parts that prefix_parts reads, one behind the other, their record, and the call on any input.
// prefix_format's specs/ promise the record of what was laid out and the place after it, or document 01's refusal, for every input.
#![tactic(auto)]

ghost use Rattle.std.specs.Prelude.{◌≡◌};
ghost use Rattle.bitcursor.specs.Answers.{outcome, value_as};
ghost use Rattle.prefix_format.specs.Prefix.{prefix_by};
ghost use Rattle.prefix_format.specs.Record.{data_of};
ghost use Rattle.prefix_format.specs.Call.{prefix_call};

use bitcursor::values::Number;
use bitcursor::{Payload, Reading, payload};
use prefix_format::table::Row;
use prefix_format::{CommonEntityData, table};
use text::version::Version;

mod record;

// The prefix by a release's row.
#[tactic(auto, using(bitcursor::proofs::Steps::reading, prefix_parts::specs::InParts::parts_read), unfolding(prefix_parts::specs::Parts::in_parts))]
fn read_by_row<N: Number>(s: &Payload, start: usize, row: Row) -> Reading<CommonEntityData<N>>
    ensures { outcome result ≡ value_as (data_of N.of_bits) ((prefix_by row).read s.now start) }
{
    let (head, p) = prefix_parts::read_head(s, start, row)?;
    let (modes, p) = prefix_parts::read_modes(s, p, row)?;
    let (colours, p) = prefix_parts::read_colours(s, p, row)?;
    let (styles, p) = prefix_parts::read_styles(s, p, row)?;
    let (tail, end) = prefix_parts::read_tail(s, p, row)?;
    Ok((record::record_of(head, modes, colours, styles, tail), end))
}

// The prefix from any bytes, at any start bit, of any release number: refusal 9, then 10, then a start past the payload, then the fields
// in order. The linetype scale is the double that it is, or its 64 bits.
#[tactic(auto, unfolding(prefix_format::specs::Call::prefix_call, text::specs::Answers::released, bitcursor::specs::Answers::limited))]
pub fn read_common_entity_data<N: Number>(
    s: &[u8],
    start: usize,
    release: u64,
) -> Reading<CommonEntityData<N>>
    ensures { outcome result ≡ value_as (data_of N.of_bits) (prefix_call release s.now start) }
{
    let version = Version::known_at(release, start)?;
    let s = &payload(s, start)?;
    read_by_row(s, start, table::row_of(version))
}
