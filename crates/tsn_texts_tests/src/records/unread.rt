//! Which refusal each cause of what is not read becomes, want of memory too, which no line brings about.
use tsn_records::unread::Unread;
use tsn_types::refusals::{Field, Refusal};

#[test]
fn what_is_not_read_is_refused(rt: HostRuntime) {
    for (unread, wanted) in [
        (Unread::Syntax, Refusal::Syntax),
        (Unread::Shape, Refusal::Shape),
        (Unread::Range(Field::Cbs), Refusal::Range(Field::Cbs)),
        (Unread::Memory, Refusal::Memory),
    ] {
        assert_eq!(rt; unread.refusal(), wanted);
    }
}
