//! The text and the exit status of each fault of a job file.
use crate::tests::compared::{expect_same, expect_text};
use disk_service::ServiceFault;

// The faults, with the text and the exit status of each.
const FAULTS: &[(ServiceFault, &str, u8)] = &[
    (ServiceFault::Memory, "fault 1 Memory", 3),
    (ServiceFault::BadLine(2), "fault 2 BadLine line 2", 2),
    (ServiceFault::NoHeader, "fault 3 NoHeader", 2),
    (ServiceFault::Spawn, "fault 4 Spawn", 3),
    (ServiceFault::Torn, "fault 5 Torn", 3),
    (ServiceFault::ReadFault, "fault 6 ReadFault", 3),
    (ServiceFault::WriteFault, "fault 7 WriteFault", 3),
];

#[test]
fn faults(rt: HostRuntime) {
    for (fault, text, status) in FAULTS {
        expect_text(&rt, fault, *text);
        expect_same(&rt, fault.status(), *status);
    }
}
