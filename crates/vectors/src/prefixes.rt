// The requests for an entity prefix: the call, and its answer as a list of numbers, the fields in the order of the Rust's answer.
use prefix_format::CommonEntityData;
use stored::answers::{Answer, Values};
use stored::record::Record;

// A number that may be absent: whether it is there, and the number.
fn put_maybe(answer: &mut Answer, number: Option<u32>) {
    answer.push(number.is_some());
    answer.push(number.unwrap_or(0));
}

// The fields, in four functions, so that no proof has to walk over many writes.
fn put_modes(answer: &mut Answer, b: &CommonEntityData<u64>) {
    answer.push(b.raw_mode);
    answer.push(u8::from(b.mode));
    answer.push(b.num_reactors);
    answer.push(b.no_xdictionary);
    answer.push(b.binary_chain);
    answer.push(b.is_on_layer);
    answer.push(b.non_fixed_ltype);
}

fn put_flags(answer: &mut Answer, b: &CommonEntityData<u64>) {
    answer.push(b.plotstyle_flag);
    answer.push(b.material_flag);
    answer.push(b.shadow_flags);
    b.invisibility.put(answer);
    answer.push(b.nolinks);
    answer.push(b.color_raw);
    put_maybe(answer, b.color_rgb);
    put_maybe(answer, b.color_alpha);
}

fn put_styles(answer: &mut Answer, b: &CommonEntityData<u64>) {
    answer.push(b.ltype_scale);
    answer.push(b.ltype_flags);
    answer.extend(&b.visual_style_flags);
}

fn put_tail(answer: &mut Answer, b: &CommonEntityData<u64>) {
    answer.push(b.lineweight);
    answer.push(b.had_graphics);
    answer.push(b.had_extended_data);
    put_maybe(answer, b.data_end_bits);
}

fn put(answer: &mut Answer, b: CommonEntityData<u64>) {
    put_modes(answer, &b);
    put_flags(answer, &b);
    put_styles(answer, &b);
    put_tail(answer, &b);
}

pub fn answer(record: &Record) -> Answer {
    let reading = common_entity::read_common_entity_data(
        record.payload,
        record.start,
        record.release,
    );
    Answer::of(reading, put)
}
