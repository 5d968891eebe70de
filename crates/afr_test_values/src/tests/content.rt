//! A file's bytes, call by call.
use afr_content::Content;

#[test]
fn the_last_byte_alone_has_the_last_page_alone(rt: HostRuntime) {
    let mut content = Content::new(rt.alloc());
    assert!(rt; content.write_at(1_048_575, b"z").is_ok());
    for number in 0u32..256 {
        assert!(rt;
            content.has_page(number) == (number == 255),
            "page {number}"
        );
    }
    let mut seen = [b'-'; 3];
    assert_eq!(rt; content.read(1_048_573, &mut seen), 3);
    assert_eq!(rt; seen.as_slice(), b"\0\0z".as_slice());
    content.cut(1_044_481);
    assert!(rt; content.has_page(255));
    content.cut(1_044_480);
    assert!(rt; !content.has_page(255));
    assert_eq!(rt; content.len(), 1_044_480);
}
