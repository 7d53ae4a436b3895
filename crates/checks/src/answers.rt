use crate::alternating::Alternating;
use double_double::arithmetic::Arithmetic;
use double_double::plain::Plain;
use erfc::answer::{Answer, rounded_ends};
use erfc::err::erfc::f_erfc;
use std::num::f64_to_bits_with_nan;
use std::process::Abort;
use std::test::Fail;

// An argument with its value, code, fast row and k, accurate row and K. The code is the number that callers see, so that its number is tested too.
#[derive(Clone, Copy)]
struct Figure {
    bits: u64,
    value: u64,
    code: u8,
    fast: Option<(usize, i64)>,
    accurate: Option<(usize, i32)>,
}

const FIGURES: [Figure; 13] = [
    Figure {
        bits: 0x4010000000000000,
        value: 0x3e508ddd13bd35e7,
        code: 3,
        fast: Some((3, -94548)),
        accurate: None,
    },
    Figure {
        bits: 0x4020000000000000,
        value: 0x39ec74fc41217dfb,
        code: 3,
        fast: Some((1, -378194)),
        accurate: None,
    },
    Figure {
        bits: 0x400713786d9c7c0a,
        value: 0x3f07ae956ac83f4f,
        code: 3,
        fast: Some((5, -49167)),
        accurate: None,
    },
    Figure {
        bits: 0x40154c13187f64a4,
        value: 0x3d2ca21762c50bc8,
        code: 4,
        fast: Some((2, -167517)),
        accurate: Some((3, -41)),
    },
    Figure {
        bits: 0x4007c93964aba743,
        value: 0x3efb66120bb7ccb3,
        code: 4,
        fast: Some((5, -52239)),
        accurate: Some((6, -13)),
    },
    Figure {
        bits: 0x4039db1bb14e15ca,
        value: 0x034ffffffffffef3,
        code: 5,
        fast: None,
        accurate: Some((0, -964)),
    },
    Figure {
        bits: 0x403b39dc41e48bfc,
        value: 1,
        code: 5,
        fast: None,
        accurate: Some((0, -1069)),
    },
    Figure {
        bits: 0x403a8f7bfbd15495,
        value: 0x000667bd620fd95b,
        code: 6,
        fast: None,
        accurate: None,
    },
    Figure {
        bits: 0x403b39dc41e48bfd,
        value: 0,
        code: 1,
        fast: None,
        accurate: None,
    },
    Figure {
        bits: 0xc017744f8f74e94b,
        value: 0x4000000000000000,
        code: 1,
        fast: None,
        accurate: None,
    },
    Figure {
        bits: 0x3c8c5bf891b4ef6a,
        value: 0x3ff0000000000000,
        code: 2,
        fast: None,
        accurate: None,
    },
    Figure {
        bits: 0x8000000000000000,
        value: 0x3ff0000000000000,
        code: 2,
        fast: None,
        accurate: None,
    },
    Figure {
        bits: 0xfff0000000000001,
        value: 0x7ff8000000000000,
        code: 0,
        fast: None,
        accurate: None,
    },
];

// The record of a figure's argument, with its value and code as the figure has them.
fn answer_of<A: Arithmetic>(
    rt: &impl Abort,
    arith: &mut A,
    figure: &Figure,
) -> Result<Answer, Fail> {
    let Ok(answer) = f_erfc(arith, figure.bits) else {
        return Err(Fail::new("refused"));
    };
    assert_eq!(rt; f64_to_bits_with_nan(answer.value), figure.value);
    assert_eq!(rt; u8::from(answer.code), figure.code);
    Ok(answer)
}

#[test]
fn figures(rt: HostRuntime) -> Result<(), Fail> {
    for figure in FIGURES.iter() {
        let answer = answer_of(&rt, &mut Plain, figure)?;
        assert_eq!(rt; answer.fast.map(|fast| (fast.row, fast.k)), figure.fast);
        assert_eq!(rt;
            answer.accurate.map(|accurate| (accurate.row, accurate.k)),
            figure.accurate
        );
        assert_eq!(rt; rounded_ends(&answer).is_some(), figure.fast.is_some());
    }
    Ok(())
}

// The first and the last argument of each refused range, with the number that callers see.
const REFUSED: [(u64, u8); 6] = [
    (0x3c8c5bf891b4ef6b, 1),
    (0x3ff0000000000000, 1),
    (0x400713786d9c7c09, 1),
    (0xbc9c5bf891b4ef6b, 2),
    (0xbff0000000000000, 2),
    (0xc017744f8f74e94a, 2),
];

#[test]
fn refusals(rt: HostRuntime) -> Result<(), Fail> {
    for (bits, number) in REFUSED.iter() {
        match f_erfc(&mut Plain, *bits) {
            Ok(_) => return Err(Fail::new("answered")),
            Err(refusal) => assert_eq!(rt; u8::from(refusal), *number),
        }
    }
    Ok(())
}

// A third arithmetic answers the same values and codes here, with the code above it unchanged.
#[test]
fn alternating(rt: HostRuntime) -> Result<(), Fail> {
    let mut arith = Alternating {
        fused: true,
        calls: 0,
    };
    for figure in FIGURES.iter() {
        let _ = answer_of(&rt, &mut arith, figure)?;
    }
    // 3 fast answers of 23 calls, 2 retried of 65 and their rows 3 and 6, 2 without a fast step of 42
    assert_eq!(rt; arith.calls, 3 * 23 + 2 * 65 + 3 + 6 + 2 * 42);
    Ok(())
}
