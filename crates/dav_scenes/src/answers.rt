//! Answers as words.
use crate::cells::tell_bytes;
use dav_handler::Answer;
use dav_io::Field;
use dav_rows::Line;

fn tell_fields(line: &mut Line, fields: &[Field]) {
    for (at, field) in fields.iter().enumerate() {
        line.add(if at == 0 { " " } else { "; " });
        line.add(field.name.as_str());
        line.add("=");
        tell_bytes(line, field.value.as_slice());
    }
}

fn tell_answer(line: &mut Line, answer: &Answer) {
    match answer {
        Answer::Reply {
            status,
            headers,
            body,
        } => {
            line.add_number("", u64::from(*status));
            line.add_number(" ", u64::from(*body));
            tell_fields(line, headers.as_slice());
        }
        Answer::Piece(bytes) => {
            line.add("piece ");
            tell_bytes(line, bytes.as_slice());
        }
        Answer::End => line.add("end"),
        Answer::Broken => line.add("broken"),
        Answer::Done => line.add("done"),
    }
}

/// Adds the answers, with `|` behind each.
pub fn tell(line: &mut Line, answers: &[Answer]) {
    for answer in answers {
        tell_answer(line, answer);
        line.add(" | ");
    }
}
