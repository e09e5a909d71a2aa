// The texts of faults.
use block_matrix::LoadFault;
use std::alloc::{AllocError, Global};
use wire_frames::{BadSession, FeedFault, Field, FrameFault};

/// Whether the text of a fault of frames is right.
fn frame_fault_is_told(
    alloc: Global,
    place: u64,
    field: Field,
    text: &str,
) -> Result<bool, AllocError> {
    let fault = FrameFault { place, field };
    Ok(format!(in alloc; "{fault}")?.as_str() == text)
}

#[test]
fn faults_of_frames_have_texts(rt: HostRuntime) -> Result<(), AllocError> {
    let alloc = rt.alloc();
    assert!(rt;
        frame_fault_is_told(
            alloc,
            0,
            Field::Magic,
            "no header of a query: wrong at byte 0"
        )?
    );
    assert!(rt;
        frame_fault_is_told(
            alloc,
            23,
            Field::Width,
            "no header of a query: wrong at byte 23"
        )?
    );
    Ok(())
}

/// Whether the text of a refused session is right.
fn bad_session_is_told(alloc: Global, place: u64, text: &str) -> Result<bool, AllocError> {
    let fault = BadSession { place };
    Ok(format!(in alloc; "{fault}")?.as_str() == text)
}

/// Whether the text of a reader's fault is right.
fn feed_fault_is_told(alloc: Global, fault: FeedFault, text: &str) -> Result<bool, AllocError> {
    Ok(format!(in alloc; "{fault}")?.as_str() == text)
}

#[test]
fn faults_of_sessions_have_texts(rt: HostRuntime) -> Result<(), AllocError> {
    let alloc = rt.alloc();
    let place = u64::MAX;
    assert!(rt; bad_session_is_told(alloc, 124, "no session: wrong at byte 124")?);
    assert!(rt;
        feed_fault_is_told(
            alloc,
            FeedFault::BadSession { place },
            "no session: wrong at byte 18446744073709551615"
        )?
    );
    assert!(rt; feed_fault_is_told(alloc, FeedFault::Memory, "no memory")?);
    Ok(())
}

/// Whether the text of a load's fault is right.
fn load_fault_is_told(alloc: Global, fault: LoadFault, text: &str) -> Result<bool, AllocError> {
    Ok(format!(in alloc; "{fault}")?.as_str() == text)
}

#[test]
fn faults_of_loads_have_texts(rt: HostRuntime) -> Result<(), AllocError> {
    let alloc = rt.alloc();
    let limit = 1 << 30;
    assert!(rt; load_fault_is_told(alloc, LoadFault::EmptyFile, "the database is empty")?);
    assert!(rt;
        load_fault_is_told(
            alloc,
            LoadFault::TooBig { limit },
            "the database has more than 1073741824 bytes"
        )?
    );
    assert!(rt; load_fault_is_told(alloc, LoadFault::ReadFault, "a call on the database failed")?);
    assert!(rt; load_fault_is_told(alloc, LoadFault::Memory, "no memory")?);
    Ok(())
}
