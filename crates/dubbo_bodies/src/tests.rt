use crate::{Attachment, Attachments, DescFault, count_args};
use hessian_graph::Chars;
use std::test::Fail;

#[test]
fn descriptors_are_counted(rt: HostRuntime) -> Result<(), Fail> {
    assert_eq!(rt; count_args(b""), Ok(0));
    assert_eq!(rt; count_args(b"[IJLa;"), Ok(3));
    assert_eq!(rt;
        count_args(b"Ljava/lang/String;[[Ljava/lang/Object;Z"),
        Ok(3)
    );
    Ok(())
}

#[test]
fn the_first_byte_that_no_descriptor_has_is_named(rt: HostRuntime) -> Result<(), Fail> {
    assert_eq!(rt; count_args(b"IV"), Err(DescFault::BadDescriptor { at: 1 }));
    assert_eq!(rt; count_args(b"L"), Err(DescFault::BadDescriptor { at: 1 }));
    assert_eq!(rt; count_args(b"IL;"), Err(DescFault::BadDescriptor { at: 2 }));
    assert_eq!(rt; count_args(b"I[["), Err(DescFault::BadDescriptor { at: 3 }));
    Ok(())
}

#[test]
fn a_256th_parameter_is_refused_where_it_begins(rt: HostRuntime) -> Result<(), Fail> {
    let ints = [b'I'; 256];
    assert_eq!(rt; count_args(&ints[..255]), Ok(255));
    assert_eq!(rt; count_args(&ints), Err(DescFault::TooManyArgs { at: 255 }));
    let mut bytes = ints;
    bytes[255] = b'L';
    assert_eq!(rt; count_args(&bytes), Err(DescFault::TooManyArgs { at: 255 }));
    bytes[255] = b'V';
    assert_eq!(rt;
        count_args(&bytes),
        Err(DescFault::BadDescriptor { at: 255 })
    );
    Ok(())
}

#[test]
fn attachments_are_made_and_read(rt: HostRuntime) -> Result<(), Fail> {
    let name = Chars::from(String::from_str(rt.alloc(), "timeout")?);
    let value = Chars::from(String::from_str(rt.alloc(), "1000")?);
    let list = vec![in rt.alloc(); Attachment { name, value }]?;
    let attachments = Attachments::from(list);
    assert_eq!(rt; attachments.as_slice().len(), 1);
    assert_eq!(rt; attachments.as_slice()[0].name.as_str(), "timeout");
    assert_eq!(rt; attachments.into_inner().len(), 1);
    Ok(())
}
