//! A reader that is interrupted, and fails.
use saga_bytes::{read_once, read_up_to};
use std::io::{self, ErrorKind, Read};
use std::test::Fail;

/// A reader that is interrupted before each byte, and fails after a number of bytes.
#[derive(Drop)]
struct Failing {
    left: usize,
    is_ready: bool,
}

impl Read for Failing {
    fn read(&mut self, buf: &mut [u8]) -> io::Result<usize> {
        if !self.is_ready {
            self.is_ready = true;
            return Err(io::Error::from(ErrorKind::Interrupted));
        }
        self.is_ready = false;
        if buf.is_empty() {
            return Ok(0);
        }
        if self.left == 0 {
            return Err(io::Error::from(ErrorKind::PermissionDenied));
        }
        self.left -= 1;
        buf[0] = b'x';
        Ok(1)
    }
}

#[test]
fn an_error_ends_the_reading(rt: HostRuntime) -> Result<(), Fail> {
    let mut reader = Failing {
        left: 6,
        is_ready: false,
    };
    let bytes = read_up_to(rt.alloc(), &mut reader, 2)?;
    assert!(rt; bytes.as_slice() == b"xxx".as_slice());
    let mut buffer = [0; 4];
    assert_eq!(rt; read_once(&mut reader, &mut buffer)?, 1);
    match read_up_to(rt.alloc(), &mut reader, 2) {
        Ok(_) => assert!(rt; false, "an error is passed over"),
        Err(error) => assert!(rt; error.kind() == ErrorKind::PermissionDenied),
    }
    Ok(())
}
