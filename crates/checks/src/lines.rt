use replay::line::Line;
use std::test::Fail;

// Lines that are not so formed: too short, too long, a capital digit, another separator, no end.
const BROKEN: [&str; 6] = [
    "",
    "4010000000000000,3e508ddd13bd35e7,3e508ddd13bd35e\n",
    "4010000000000000,3e508ddd13bd35e7,3e508ddd13bd35e70\n",
    "4010000000000000,3E508ddd13bd35e7,3e508ddd13bd35e7\n",
    "4010000000000000;3e508ddd13bd35e7,3e508ddd13bd35e7\n",
    "4010000000000000,3e508ddd13bd35e7,3e508ddd13bd35e7,",
];

#[test]
fn lines(rt: HostRuntime) -> Result<(), Fail> {
    for text in BROKEN.iter() {
        assert!(rt; Line::try_from(text.as_bytes()).is_err());
    }
    let line = Line::try_from("4010000000000000,3e508ddd13bd35e7,fedcba9876543210\n".as_bytes())?;
    assert_eq!(rt; line.argument, 0x4010000000000000);
    assert_eq!(rt; line.plain, 0x3e508ddd13bd35e7);
    assert_eq!(rt; line.fused, 0xfedcba9876543210);
    Ok(())
}
