// The fields of a hatch as numbers, in the order of the Rust's answer; in several functions, so that no proof has to walk over many writes.
use hatch_format::{GradientColorBits, GradientFillBits, HatchBits};
use stored::answers::{Answer, Values};
use stored::record::Record;
use stored::texts;
use text::{Source, Text};

// A text that begins behind more numbers than these has no room.
const MOST_BEFORE: usize = 1000;

// Puts a text, whose units are read in the payload that it lies in; where it has no room, the answer is full.
fn put_text(answer: &mut Answer, record: &Record, t: Text) {
    if MOST_BEFORE < answer.as_slice().len() {
        answer.fill();
        return;
    }
    match t.source {
        Source::String => texts::put(answer, record.strings.unwrap_or(&[]), t),
        _ => texts::put(answer, record.payload, t),
    }
}

fn put_color(answer: &mut Answer, c: &GradientColorBits) {
    answer.push(c.unknown_double);
    c.unknown_short.put(answer);
    answer.push(c.rgb);
    answer.push(c.ignored_color_byte);
}

fn put_fill(answer: &mut Answer, g: &GradientFillBits) {
    answer.push(g.present);
    answer.push(g.angle);
    answer.push(g.shift);
    answer.push(g.is_single_color);
    answer.push(g.tint);
    answer.push(g.num_colors as u64);
    for color in g.colors.iter().take(g.num_colors) {
        put_color(answer, color);
    }
}

fn put_plane(answer: &mut Answer, h: &HatchBits) {
    answer.push(h.elevation);
    answer.push(h.extrusion.x);
    answer.push(h.extrusion.y);
    answer.push(h.extrusion.z);
}

fn put_styles(answer: &mut Answer, h: &HatchBits) {
    answer.push(h.solid_fill);
    answer.push(h.associative);
    answer.push(h.pattern_style);
    answer.push(h.pattern_type);
}

fn put_pattern(answer: &mut Answer, h: &HatchBits) {
    answer.push(h.pattern_angle);
    answer.push(h.pattern_scale);
    answer.push(h.pattern_double);
    answer.push(h.pixel_size);
}

fn put_counts(answer: &mut Answer, h: &HatchBits) {
    answer.push(h.num_paths as u64);
    answer.push(h.num_pattern_lines as u64);
    answer.push(h.num_seed_points as u64);
    answer.push(h.words_used as u64);
    answer.push(h.numbers_used as u64);
}

pub fn put(answer: &mut Answer, record: &Record, h: &HatchBits) {
    put_fill(answer, &h.gradient);
    put_text(answer, record, h.gradient.name);
    put_plane(answer, h);
    put_text(answer, record, h.pattern_name);
    put_styles(answer, h);
    put_pattern(answer, h);
    put_counts(answer, h);
}
