// The requests for one code once more, each by a cursor that is lent to its reader: the answer, and the place at which the cursor
// then stands.
use bitcursor::{Refusal, values};
use cursor::BitCursor;
use stored::answers::{Answer, Values};
use stored::kinds::Kind;
use stored::record::Record;

// Reads by a cursor at `at`. That the reader is always callable is a clause, since no bound says it of a closure's type.
fn read<T: Values, F: FnOnce(&mut BitCursor) -> Result<T, Refusal>>(at: usize, read: F) -> Answer
    requires { F.IsAlwaysCallable read }
{
    let mut cursor = BitCursor::at(at);
    let value = read(&mut cursor);
    crate::reading(value, cursor.position_bits()).into()
}

// The answer of the kinds of `codes` whose readers take a lent cursor: none that gives a double's 64 bits does. A match and no table, as in `codes`.
pub fn answer(record: &Record) -> Option<Answer> {
    let s = record.payload;
    let at = record.start;
    let default = values::double_of(record.more);
    Some(match record.kind {
        Kind::B => read(at, |c| c.read_b(s)),
        Kind::Bb => read(at, |c| c.read_bb(s)),
        Kind::ThreeB => read(at, |c| c.read_3b(s)),
        Kind::Bs => read(at, |c| c.read_bs(s)),
        Kind::BsU => read(at, |c| c.read_bs_u(s)),
        Kind::Bl => read(at, |c| c.read_bl(s)),
        Kind::BlU => read(at, |c| c.read_bl_u(s)),
        Kind::Bll => read(at, |c| c.read_bll(s)),
        Kind::Rc => read(at, |c| c.read_rc(s)),
        Kind::Rs => read(at, |c| c.read_rs(s)),
        Kind::Rl => read(at, |c| c.read_rl(s)),
        Kind::Handle => read(at, |c| c.read_handle(s)),
        Kind::Bd => read(at, |c| c.read_bd(s)),
        Kind::Rd => read(at, |c| c.read_rd(s)),
        Kind::Dd => read(at, |c| c.read_dd(s, default)),
        _ => return None,
    })
}
