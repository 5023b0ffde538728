use crate::{Mark, Named, Over};
use iv_span::Span;
use row_table::RowList;
use std::test::Fail;

#[test]
fn rows_of_a_list_are_found(rt: HostRuntime) -> Result<(), Fail> {
    let mut list = RowList::new(rt.alloc());
    for (name, start) in [(7, 0), (9, 10), (7, 20), (11, 30)] {
        let span = Span::new(start, start + 15)?;
        list.push(Mark {
            name,
            span,
            group: None,
            size: list.count() as u64,
        })?;
    }
    for (name, size) in [(7, Some(0)), (9, Some(1)), (11, Some(3)), (5, None)] {
        assert_eq!(rt; list.first(&Named { name }).map(|row| row.size), size);
        assert_eq!(rt; list.any(&Named { name }), size.is_some());
    }
    let late = Over {
        span: Span::new(26, 28)?,
    };
    assert_eq!(rt; list.first(&late).map(|row| row.size), Some(2));
    Ok(())
}
