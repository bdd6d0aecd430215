// The requests for one code: which call each kind is. A match and no table: the calls answer in types of their own, so a table would be one of boxed
// closures.
use bitcursor::values;
use stored::answers::Answer;
use stored::kinds::Kind;
use stored::record::Record;

// The code's answer; `more` is a DD's default, as its 64 bits.
pub fn answer(record: &Record) -> Option<Answer> {
    let s = record.payload;
    let at = record.start;
    let default = record.more;
    Some(match record.kind {
        Kind::B => bit_codes::read_b(s, at).into(),
        Kind::Bb => bit_codes::read_bb(s, at).into(),
        Kind::ThreeB => bit_codes::read_3b(s, at).into(),
        Kind::Bs => bit_codes::read_bs(s, at).into(),
        Kind::BsU => bit_codes::read_bs_u(s, at).into(),
        Kind::Bl => bit_codes::read_bl(s, at).into(),
        Kind::BlU => bit_codes::read_bl_u(s, at).into(),
        Kind::BdBits => bit_codes::read_bd::<u64>(s, at).into(),
        Kind::Bll => bit_codes::read_bll(s, at).into(),
        Kind::Rc => bit_codes::read_rc(s, at).into(),
        Kind::Rs => bit_codes::read_rs(s, at).into(),
        Kind::Rl => bit_codes::read_rl(s, at).into(),
        Kind::RdBits => bit_codes::read_rd::<u64>(s, at).into(),
        Kind::Handle => bit_codes::read_handle(s, at).into(),
        Kind::DdBits => bit_codes::read_dd(s, at, default).into(),
        Kind::Bd => bit_codes::read_bd::<f64>(s, at).into(),
        Kind::Rd => bit_codes::read_rd::<f64>(s, at).into(),
        Kind::Dd => bit_codes::read_dd(s, at, values::double_of(default)).into(),
        _ => return None,
    })
}
